// What is proved of every quarantine, over whatever heap.
ghost use Rattle.quarantine.specs.Laws.{QuarantineRules};

use heaps::heap::Heap;

// From the first clear on, in every state that calls lead to: who waits, who lives, who goes below and when.
pub fn quarantine_keeps_its_rules<H: Heap>()
    ensures { QuarantineRules H.rule }
{}
