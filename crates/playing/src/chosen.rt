// The heap or rack that a script names, chosen when the program runs.
ghost use Rattle.playing.specs.Chosen.{NewHeap, NewDirect, NewRack};

use best_fit::heap::BestFit;
use choices::choice::Choice;
use quarantine::heap::Quarantine;
use racks::ring::RingRack;
use racks::stack::StackRack;
use scripts::names::{DirectName, HeapName, RackName};
use slots::heap::Slots;

pub type Direct = Choice<BestFit, Slots>;

pub type AnyHeap = Choice<Direct, Choice<Quarantine<Direct>, Quarantine<Quarantine<Direct>>>>;

pub type AnyRack = Choice<StackRack, RingRack>;

// Functions and no From, since neither the names nor the heaps are this crate's.
fn new_direct(name: DirectName) -> Direct
    ensures { NewDirect name result }
{
    match name {
        DirectName::BestFit => Choice::First(BestFit::new()),
        DirectName::Slots => Choice::Second(Slots::new()),
    }
}

// The heap of the name, with no block.
pub fn new_heap(name: HeapName) -> AnyHeap
    ensures { NewHeap name result }
{
    match name {
        HeapName::Alone(direct) => Choice::First(new_direct(direct)),
        HeapName::Quarantined(direct) => {
            Choice::Second(Choice::First(Quarantine::new(new_direct(direct))))
        }
        HeapName::TwiceQuarantined(direct) => {
            let below = Quarantine::new(new_direct(direct));
            Choice::Second(Choice::Second(Quarantine::new(below)))
        }
    }
}

// The rack of the name, with no place out.
pub fn new_rack(name: RackName) -> AnyRack
    ensures { NewRack name result }
{
    match name {
        RackName::Stack => Choice::First(StackRack::new()),
        RackName::Ring => Choice::Second(RingRack::new()),
    }
}
