// The stack rack: the place put back last is drawn first, and places put back come before fresh ones.
ghost use Rattle.racks.specs.Row.{in_front};
ghost use Rattle.racks.specs.Rows.{joins_front};

use crate::joins::Joins;
use crate::place_rack::PlaceRack;
use crate::places::PLACES;
use rings::ring::Ring;

pub struct InFront;

impl Joins for InFront {
    ghost joined = { in_front };

    ghost once = { joins_front };

    #[inline]
    fn join(back: &mut Ring<u8, PLACES>, place: u8) -> Result<(), u8> {
        back.push_front(place)
    }
}

pub type StackRack = PlaceRack<InFront>;
