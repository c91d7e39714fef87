// The slot heap's rule in plain words.
ghost use Rattle.std.specs.Prelude.{◌≡◌, ◌+◌, None};
ghost use Rattle.slots.specs.Rule.{slots_held, slotted};
ghost use Rattle.slots.specs.Turns.{AlwaysInTurn};

use crate::heap::Slots;
use heaps::heap::Heap;
use heaps::limits::HEAP_BYTES;

// Over every history from a clear on, a take gets the first free slot in turn from after the one last granted,
// and 1 to 256 bytes are refused only when all sixteen are taken.
pub fn slots_are_granted_in_turn()
    ensures { AlwaysInTurn }
{}

// Of a heap of which nothing else is known: no block starts behind its bytes.
pub fn nothing_starts_behind(heap: &Slots, past: u16) -> Option<u64>
    ensures held { result ≡ slots_held (slotted heap.now.taken heap.now.next) (4096 + past) }
    ensures none { result ≡ None }
{
    heap.holds(HEAP_BYTES + u64::from(past))
}
