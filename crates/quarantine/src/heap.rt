// A heap over another heap: what is given waits in line, and goes below when the line is full or a take needs the room.
ghost use Rattle.std.specs.Prelude.{◌≡◌, ◌≤◌, [], length};
ghost use Rattle.quarantine.specs.Rule.{quarantine_rule, quarantined, joined};
ghost use Rattle.quarantine.specs.Waiting.{waiting_of};
ghost use Rattle.quarantine.specs.Sound.{quarantine_points};

use crate::limits::MOST_WAITING;
use faults::cause::Cause;
use faults::fault::Fault;
use heaps::block::Bare;
use heaps::heap::Heap;
use heaps::limits::HEAP_BYTES;
use rings::ring::Ring;

#[derive(Drop)]
pub struct Quarantine<H> {
    below: H,
    waiting: Ring<u64, MOST_WAITING>,
    // Said here, since a ring that is seen as a list tells nobody how long it can be.
    ghost few: { length (waiting_of waiting) ≤ 16 },
}

impl<H: Heap> Quarantine<H> {
    #[inline]
    pub fn new(below: H) -> Quarantine<H>
        ensures below { result.below ≡ below }
        ensures waiting { waiting_of result.waiting ≡ [] }
    {
        Quarantine {
            below,
            waiting: Ring::new(),
        }
    }

    // Puts a block to wait; when the line is full, the longest waiting goes below first.
    #[inline]
    fn wait(&mut self, start: u64)
        ensures { quarantined (H.state self.new.below) (waiting_of self.new.waiting) ≡ joined H.rule start (waiting_of self.old.waiting) (H.state self.old.below) }
    {
        if self.waiting.is_full()
            && let Some(longest) = self.waiting.pop_front()
        {
            // From the first clear on what waits lives below, so this is not refused.
            let _ = self.below.give(longest);
        }
        // There is room now.
        let _ = self.waiting.push_back(start);
    }
}

impl<H: Heap> Heap for Quarantine<H> {
    ghost rule = { quarantine_rule H.Heap.rule };

    ghost state = { λ q. quarantined (H.Heap.state q.below) (waiting_of q.waiting) };

    ghost points = { quarantine_points H.Heap.rule H.Heap.points };

    #[inline]
    fn take(&mut self, n: u64) -> Result<Bare, Fault> {
        if n == 0 || n > HEAP_BYTES {
            return self.below.take(n);
        }
        loop {
            match self.below.take(n) {
                Ok(block) => return Ok(block),
                Err(refused) => {
                    let longest = self.waiting.pop_front().ok_or(refused)?;
                    // From the first clear on what waited lives below, so this is not refused.
                    let _ = self.below.give(longest);
                }
            }
        }
    }

    #[inline]
    fn give(&mut self, start: u64) -> Result<(), Fault> {
        let Some(_) = self.holds(start) else {
            return Err(Fault::whole(Cause::GiveRefused));
        };
        self.wait(start);
        Ok(())
    }

    #[inline]
    fn holds(&self, start: u64) -> Option<u64> {
        // Often nobody waits, and nothing is searched then.
        if !self.waiting.is_empty() && self.waiting.contains(&start) {
            return None;
        }
        self.below.holds(start)
    }

    #[inline]
    fn clear(&mut self) {
        self.below.clear();
        self.waiting.clear();
    }
}
