// A rack that draws the first of the places that are back. Where a place that comes back joins them is `J`'s choice.
ghost use Rattle.std.specs.Prelude.{◌≡◌};
ghost use Rattle.racks.specs.Row.{row_of, row_rule, fresh_row};
ghost use Rattle.racks.specs.Accounted.{Accounted};
ghost use Rattle.racks.specs.Rows.{row_points};

use crate::joins::Joins;
use crate::places::{MARKS, PLACES, fresh_places};
use crate::rack::Rack;
use faults::cause::Cause;
use faults::fault::Fault;
use rings::ring::Ring;
use std::marker::PhantomData;

#[derive(Drop)]
pub struct PlaceRack<J> {
    // The places that are back, the next to be drawn first.
    back: Ring<u8, PLACES>,
    // Whether a place is out, by its number: a put looks at one mark, and not over those that are back.
    out: [bool; MARKS],
    joins: PhantomData<J>,
    ghost sound: { Accounted (row_of back out) },
}

impl<J: Joins> PlaceRack<J> {
    // A rack as after a clear.
    #[inline]
    pub fn new() -> PlaceRack<J>
        ensures { row_of result.back result.out ≡ fresh_row }
    {
        let back = Ring::from(fresh_places());
        PlaceRack {
            back,
            out: [false; MARKS],
            joins: PhantomData,
        }
    }
}

impl<J: Joins> Rack for PlaceRack<J> {
    ghost rule = { row_rule J.joined };

    ghost state = { λ r. row_of r.back r.out };

    ghost points = { row_points J.joined J.once };

    #[inline]
    fn draw(&mut self) -> Result<u8, Fault> {
        let place = self
            .back
            .pop_front()
            .ok_or_else(|| Fault::whole(Cause::DrawRefused))?;
        self.out[usize::from(place)] = true;
        Ok(place)
    }

    #[inline]
    fn put(&mut self, place: u8) -> Result<(), Fault> {
        if !self.out[usize::from(place)] {
            return Err(Fault::whole(Cause::PutRefused));
        }
        // While a place is out there is room.
        let _ = J::join(&mut self.back, place);
        self.out[usize::from(place)] = false;
        Ok(())
    }

    #[inline]
    fn clear(&mut self) {
        *self = PlaceRack::new();
    }
}
