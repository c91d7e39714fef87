// What a rack of lock places is to its users: its rule, a state, and calls that follow the rule.
ghost use Rattle.std.specs.Prelude.{◌≡◌};
ghost use Rattle.racks.specs.Rule.{RackRule};
ghost use Rattle.racks.specs.Points.{RackPoints};
ghost use Rattle.racks.specs.Answers.{drawn, returned};

use faults::fault::Fault;

pub trait Rack {
    ghost rule: { RackRule };

    ghost state: { Self → rule.State };

    // A place that was not out, or refusal 42 when all are out.
    fn draw(&mut self) -> Result<u8, Fault>
        ensures answer { result ≡ drawn (rule.draw (state self.old)).answer }
        ensures after { state self.new ≡ (rule.draw (state self.old)).after };

    // Puts a place back, or refusal 43 when it is not out.
    fn put(&mut self, place: u8) -> Result<(), Fault>
        ensures answer { result ≡ returned (rule.put (state self.old) place).answer }
        ensures after { state self.new ≡ (rule.put (state self.old) place).after };

    // All places are back.
    fn clear(&mut self)
        ensures { state self.new ≡ rule.clear (state self.old) };

    ghost points: { RackPoints rule };
}
