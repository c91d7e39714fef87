// The places of a rack.
ghost use Rattle.std.specs.Prelude.{◌≡◌, ◌+◌, ◌<◌};
ghost use Rattle.racks.specs.Row.{last_places};

use std::array;

// They are numbered from 1 on.
pub(crate) const PLACES: usize = 255;

// A mark for each place stands at its number. The one at 0 is never set.
pub(crate) const MARKS: usize = PLACES + 1;

// All places in their order.
pub(crate) fn fresh_places() -> [u8; PLACES]
    ensures { result ≡ last_places 255 }
{
    array::from_fn(
        |before| -> u8
            requires { before < 255 }
            ensures { result ≡ before + 1 }
        {
            // proved to fit
            before as u8 + 1
        },
    )
}
