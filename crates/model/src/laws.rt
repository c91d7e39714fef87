// The theorems. Those over a machine hold for any heap and any rack.
ghost use Rattle.model.specs.Agreement.{AlwaysAgree};
ghost use Rattle.model.specs.Lives.{NeverAgain};
ghost use Rattle.model.specs.Promise.{AlwaysKeeps};

use heaps::heap::Heap;
use racks::rack::Rack;

// Over every history of calls, the machine answers what the history book says, and each register has its word and descent.
pub fn machine_and_book_agree<H: Heap, R: Rack>()
    ensures { AlwaysAgree H.Heap.rule R.Rack.rule }
{}

// Over every history of calls, the whole promise: the agreement; which accesses and releases pass, what loads bring and
// when a grab is granted, told from the trail alone; and the laws of runs and of refusals.
pub fn every_history_keeps_the_promise<H: Heap, R: Rack>()
    ensures { AlwaysKeeps H.Heap.rule R.Rack.rule }
{}

// Whatever a trail shows next, grants keep their numbers, and none that has ended lives again.
pub fn ended_grants_never_live_again()
    ensures { NeverAgain }
{}
