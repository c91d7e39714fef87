// The ring rack: the place that has been back longest is drawn first. Fresh places count as back since the clear.
ghost use Rattle.racks.specs.Row.{at_end};
ghost use Rattle.racks.specs.Rows.{joins_end};

use crate::joins::Joins;
use crate::place_rack::PlaceRack;
use crate::places::PLACES;
use rings::ring::Ring;

pub struct AtEnd;

impl Joins for AtEnd {
    ghost joined = { at_end };

    ghost once = { joins_end };

    #[inline]
    fn join(back: &mut Ring<u8, PLACES>, place: u8) -> Result<(), u8> {
        back.push_back(place)
    }
}

pub type RingRack = PlaceRack<AtEnd>;
