// One of two racks is a rack: every call goes to the one that is there.
ghost use Rattle.choices.specs.Choice.{either_state};
ghost use Rattle.choices.specs.Racks.{either_rule};
ghost use Rattle.choices.specs.RacksLemmas.{either_points};

use crate::choice::Choice;
use faults::fault::Fault;
use racks::rack::Rack;

impl<A: Rack, B: Rack> Rack for Choice<A, B> {
    ghost rule = { either_rule A.Rack.rule B.Rack.rule };

    ghost state = { either_state A.Rack.state B.Rack.state };

    ghost points = { either_points A.Rack.rule B.Rack.rule A.Rack.points B.Rack.points };

    fn draw(&mut self) -> Result<u8, Fault> {
        match self {
            Choice::First(rack) => rack.draw(),
            Choice::Second(rack) => rack.draw(),
        }
    }

    fn put(&mut self, place: u8) -> Result<(), Fault> {
        match self {
            Choice::First(rack) => rack.put(place),
            Choice::Second(rack) => rack.put(place),
        }
    }

    fn clear(&mut self) {
        match self {
            Choice::First(rack) => rack.clear(),
            Choice::Second(rack) => rack.clear(),
        }
    }
}
