// What a heap is to its users: its rule, a state, and calls that follow the rule.
ghost use Rattle.std.specs.Prelude.{◌≡◌, IfOk};
ghost use Rattle.heaps.specs.Rule.{HeapRule};
ghost use Rattle.heaps.specs.Points.{Points};
ghost use Rattle.heaps.specs.Answers.{plain, taken, given};

use crate::block::Bare;
use faults::fault::Fault;

pub trait Heap {
    ghost rule: { HeapRule };

    ghost state: { Self → rule.State };

    // A block of at least n bytes, or refusal 40.
    fn take(&mut self, n: u64) -> Result<Bare, Fault>
        ensures answer { plain result ≡ taken (rule.take (state self.old) n).answer }
        ensures asked { IfOk result (λ b. b.asked ≡ n) }
        ensures after { state self.new ≡ (rule.take (state self.old) n).after };

    // Ends the block that starts there, or refusal 41.
    fn give(&mut self, start: u64) -> Result<(), Fault>
        ensures answer { result ≡ given (rule.give (state self.old) start).answer }
        ensures after { state self.new ≡ (rule.give (state self.old) start).after };

    // The held size of the living block that starts there.
    fn holds(&self, start: u64) -> Option<u64>
        ensures { result ≡ rule.held (state self.now) start };

    fn clear(&mut self)
        ensures { state self.new ≡ rule.clear (state self.old) };

    // Takes back a block that was not keyed: a give of its start.
    fn give_back(&mut self, block: Bare)
        ensures { state self.new ≡ (rule.give (state self.old) block.start).after }
    {
        let Bare {
            start,
            asked: _,
            held: _,
        } = block;
        // A block that another heap granted may be refused here; it is spent all the same.
        let _ = self.give(start);
    }

    ghost points: { Points rule };
}
