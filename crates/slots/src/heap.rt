// The slot heap and its calls.
ghost use Rattle.std.specs.Prelude.{◌≡◌, ◌<◌, IfSome};
ghost use Rattle.slots.specs.Rule.{slots_rule, slotted, cleared, first_free, slot_at};
ghost use Rattle.slots.specs.Keeping.{slots_points};

use faults::cause::Cause;
use faults::fault::Fault;
use heaps::block::Bare;
use heaps::heap::Heap;

const SLOTS: usize = 16;

const SLOT_BYTES: u64 = 256;

#[derive(Drop)]
pub struct Slots {
    taken: [bool; SLOTS],
    // the slot that a take tries first
    next: usize,
    // A fact of the fields, and no model: a heap seen as a list alone would not tell its users how many slots it has.
    ghost within: { next < 16 },
}

impl Slots {
    pub fn new() -> Slots
        ensures { slotted result.taken result.next ≡ cleared }
    {
        Slots {
            taken: [false; SLOTS],
            next: 0,
        }
    }

    // The first free slot, tried in turn from `next` on and round.
    fn first_free(&self) -> Option<usize>
        ensures first { result ≡ first_free self.now.taken 16 self.now.next }
        ensures within { IfSome result (λ i. i < 16) }
    {
        let first = self.next;
        (0..SLOTS)
            .map(|turns| (first + turns) % SLOTS)
            .find(|&slot| !self.taken[slot])
    }

    // The slot of the living block that starts there. The best-fit heap's look-up differs in the size and in what stands in a
    // cell; a few lines are no longer than one function over both.
    fn slot_at(&self, start: u64) -> Option<usize>
        ensures slot { result ≡ slot_at self.now.taken start }
        ensures within { IfSome result (λ i. i < 16) }
    {
        let slots = &self.taken;
        if start % SLOT_BYTES != 0 {
            return None;
        }
        let slot = usize::try_from(start / SLOT_BYTES).ok()?;
        let taken = *slots.get(slot)?;
        taken.then_some(slot)
    }
}

impl Heap for Slots {
    ghost rule = { slots_rule };

    ghost state = { λ s. slotted s.taken s.next };

    ghost points = { slots_points };

    fn take(&mut self, n: u64) -> Result<Bare, Fault> {
        if n == 0 || n > SLOT_BYTES {
            return Err(Fault::whole(Cause::TakeRefused));
        }
        let Some(slot) = self.first_free() else {
            return Err(Fault::whole(Cause::TakeRefused));
        };
        self.taken[slot] = true;
        self.next = (slot + 1) % SLOTS;
        // no From leads from usize to u64
        Bare::granted(SLOT_BYTES * slot as u64, n, SLOT_BYTES)
    }

    fn give(&mut self, start: u64) -> Result<(), Fault> {
        let slot = self
            .slot_at(start)
            .ok_or_else(|| Fault::whole(Cause::GiveRefused))?;
        self.taken[slot] = false;
        Ok(())
    }

    fn holds(&self, start: u64) -> Option<u64> {
        self.slot_at(start).map(|_| SLOT_BYTES)
    }

    fn clear(&mut self) {
        *self = Slots::new();
    }
}
