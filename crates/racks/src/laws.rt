// What is proved of racks over every history of their calls.
ghost use Rattle.racks.specs.Histories.{EveryHistory};
ghost use Rattle.racks.specs.Row.{stack_rule, ring_rule};
ghost use Rattle.racks.specs.Turns.{DrawsFirst, LaterBack, LongerBack};

use crate::rack::Rack;
use crate::ring::RingRack;
use crate::stack::StackRack;

// Over every history of draws, puts and clears from a clear on, any rack keeps the points,
// and its places out are those drawn and not put back since.
pub fn every_history_keeps_the_points<R: Rack>()
    ensures { EveryHistory R.rule }
{}

// After every history from a clear on, the stack rack draws the place that was put back last;
// where none was put back, the lowest.
pub fn stack_gives_the_last_back()
    ensures rule { DrawsFirst LaterBack stack_rule }
    ensures rack { DrawsFirst LaterBack ⟦<StackRack as Rack>⟧.rule }
{}

// After every history from a clear on, the ring rack draws the place that has been back longest;
// of places that were never out, the lowest.
pub fn ring_gives_the_longest_back()
    ensures rule { DrawsFirst LongerBack ring_rule }
    ensures rack { DrawsFirst LongerBack ⟦<RingRack as Rack>⟧.rule }
{}
