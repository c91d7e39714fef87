// What is proved of every heap at once.
ghost use Rattle.heaps.specs.Histories.{EveryHistory};

use crate::heap::Heap;

// Over every history of takes, gives and clears from a clear on, any heap keeps the points,
// and its living blocks are those granted and not given since.
pub fn every_history_keeps_the_points<H: Heap>()
    ensures { EveryHistory H.rule }
{}
