// The best-fit heap's rule in plain words, and worked examples of it.
ghost use Rattle.std.specs.Prelude.{◌≡◌, ◌+◌, None};
ghost use Rattle.best_fit.specs.Rule.{best_fit_held};
ghost use Rattle.best_fit.specs.Fits.{AlwaysBest};
ghost use Rattle.best_fit.specs.Examples.{Examples};

use crate::heap::BestFit;
use heaps::heap::Heap;
use heaps::limits::HEAP_BYTES;

// From its first clear on, each block granted is the best fit, and 1 to 4,096 bytes are refused only when no gap suffices.
pub fn every_grant_is_the_best_fit()
    ensures { AlwaysBest }
{}

pub fn best_fit_examples()
    ensures { Examples }
{}

// Of a heap of which nothing else is known: no block starts behind its bytes.
pub fn nothing_starts_behind(heap: &BestFit, past: u16) -> Option<u64>
    ensures held { result ≡ best_fit_held heap.now.cells (4096 + past) }
    ensures none { result ≡ None }
{
    heap.holds(HEAP_BYTES + u64::from(past))
}
