// Where a place that comes back joins the row of those that are back.
ghost use Rattle.std.specs.Prelude.{◌≡◌, ℕ, ◌<◌, ◌↔◌, List, length, IsOk, OnOk, OnErr, IfErr};
ghost use Rattle.racks.specs.Rows.{Joins as JoinsOnce};

use crate::places::PLACES;
use rings::ring::Ring;

pub trait Joins {
    ghost joined: { ℕ → List ℕ → List ℕ };

    // The place joins the row, or comes back where the row has no room.
    fn join(back: &mut Ring<u8, PLACES>, place: u8) -> Result<(), u8>
        ensures room { IsOk result ↔ (length back.old < 255) }
        ensures joins { OnOk result (back.new ≡ joined place back.old) }
        ensures stays { OnErr result (back.new ≡ back.old) }
        ensures returned { IfErr result (λ p. p ≡ place) };

    ghost once: { JoinsOnce joined };
}
