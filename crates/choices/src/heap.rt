// One of two heaps is a heap: every call goes to the one that is there.
ghost use Rattle.choices.specs.Choice.{either_state};
ghost use Rattle.choices.specs.Heaps.{either_rule};
ghost use Rattle.choices.specs.HeapsLemmas.{either_points};

use crate::choice::Choice;
use faults::fault::Fault;
use heaps::block::Bare;
use heaps::heap::Heap;

impl<A: Heap, B: Heap> Heap for Choice<A, B> {
    ghost rule = { either_rule A.Heap.rule B.Heap.rule };

    ghost state = { either_state A.Heap.state B.Heap.state };

    ghost points = { either_points A.Heap.rule B.Heap.rule A.Heap.points B.Heap.points };

    #[inline]
    fn take(&mut self, n: u64) -> Result<Bare, Fault> {
        match self {
            Choice::First(heap) => heap.take(n),
            Choice::Second(heap) => heap.take(n),
        }
    }

    #[inline]
    fn give(&mut self, start: u64) -> Result<(), Fault> {
        match self {
            Choice::First(heap) => heap.give(start),
            Choice::Second(heap) => heap.give(start),
        }
    }

    // Always, since a sheet asks it of every cell.
    #[inline(always)]
    fn holds(&self, start: u64) -> Option<u64> {
        match self {
            Choice::First(heap) => heap.holds(start),
            Choice::Second(heap) => heap.holds(start),
        }
    }

    fn clear(&mut self) {
        match self {
            Choice::First(heap) => heap.clear(),
            Choice::Second(heap) => heap.clear(),
        }
    }
}
