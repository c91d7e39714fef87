// A heap and a rack that a script works on: each may be there or not.
ghost use Rattle.std.specs.Prelude.{◌≡◌, Some, None};
ghost use Rattle.std.specs.Option.{option_copied, option_map};

use crate::reply::{Refusal, Reply};
use faults::cause::Cause;
use faults::fault::Fault;
use heaps::block::{Bare, Parts};
use heaps::heap::Heap;
use racks::rack::Rack;
use scripts::command::Command;

#[derive(Drop)]
pub struct Bench<H, R> {
    heap: Option<H>,
    rack: Option<R>,
}

impl<H: Heap + Drop, R: Rack + Drop> Bench<H, R> {
    ghost use Rattle.benches.specs.Benches.{takes, after_take, gives, after_give, holds, heap_cleared, draws, after_draw, puts, after_put, rack_cleared, clears, answers, heap_after, rack_after, OnHeap, OnRack, OnBoth};

    // Neither a heap nor a rack.
    pub fn new() -> Bench<H, R>
        ensures { result ≡ record { heap = None; rack = None } }
    {
        Bench {
            heap: None,
            rack: None,
        }
    }

    // A heap in the place of the one before. A setter for each field: what differs is the field, which no parameter names.
    pub fn set_heap(&mut self, heap: H)
        ensures { self.new ≡ record { heap = Some heap; rack = self.old.rack } }
    {
        self.heap = Some(heap);
    }

    // A rack in the place of the one before.
    pub fn set_rack(&mut self, rack: R)
        ensures { self.new ≡ record { heap = self.old.heap; rack = Some rack } }
    {
        self.rack = Some(rack);
    }

    pub fn take(&mut self, n: u64) -> Result<Reply, Refusal>
        ensures { OnHeap H.Heap.state (takes H.Heap.rule n) (after_take H.Heap.rule n) self.old self.new result }
    {
        let heap = self.heap.as_mut().ok_or(Refusal::NoHeap)?;
        Ok(granted(heap.take(n)?))
    }

    pub fn give(&mut self, start: u64) -> Result<Reply, Refusal>
        ensures { OnHeap H.Heap.state (gives H.Heap.rule start) (after_give H.Heap.rule start) self.old self.new result }
    {
        let heap = self.heap.as_mut().ok_or(Refusal::NoHeap)?;
        heap.give(start)?;
        Ok(Reply::Done)
    }

    pub fn holds(&self, start: u64) -> Result<Reply, Refusal>
        ensures { result ≡ holds H.Heap.rule start (option_map H.Heap.state self.now.heap) }
    {
        let heap = self.heap.as_ref().ok_or(Refusal::NoHeap)?;
        Ok(Reply::Held(heap.holds(start)))
    }

    pub fn draw(&mut self) -> Result<Reply, Refusal>
        ensures { OnRack R.Rack.state (draws R.Rack.rule) (after_draw R.Rack.rule) self.old self.new result }
    {
        let rack = self.rack.as_mut().ok_or(Refusal::NoRack)?;
        Ok(Reply::Drawn(rack.draw()?))
    }

    pub fn put(&mut self, place: u64) -> Result<Reply, Refusal>
        ensures { OnRack R.Rack.state (puts R.Rack.rule place) (after_put R.Rack.rule place) self.old self.new result }
    {
        let rack = self.rack.as_mut().ok_or(Refusal::NoRack)?;
        let place = u8::try_from(place).map_err(|_| Fault::whole(Cause::PutRefused))?;
        rack.put(place)?;
        Ok(Reply::Done)
    }

    // Clears what is there.
    pub fn clear(&mut self) -> Result<Reply, Refusal>
        ensures { OnBoth H.Heap.state R.Rack.state clears (heap_cleared H.Heap.rule) (rack_cleared R.Rack.rule) self.old self.new result }
    {
        if self.heap.is_none() && self.rack.is_none() {
            return Err(Refusal::Neither);
        }
        if let Some(heap) = &mut self.heap {
            heap.clear();
        }
        if let Some(rack) = &mut self.rack {
            rack.clear();
        }
        Ok(Reply::Done)
    }

    // What a command does to the heap and the rack that are there, and its answer.
    // A new heap or rack and a sheet need more than these, and have none.
    // A match and no table of closures: a command is data that was read, and here it becomes a call.
    pub fn perform(&mut self, command: Command) -> Option<Result<Reply, Refusal>>
        ensures { OnBoth H.Heap.state R.Rack.state (answers H.Heap.rule R.Rack.rule command) (heap_after H.Heap.rule command) (rack_after R.Rack.rule command) self.old self.new result }
    {
        match command {
            Command::Take(n) => Some(self.take(n)),
            Command::Give(start) => Some(self.give(start)),
            Command::Holds(start) => Some(self.holds(start)),
            Command::Draw => Some(self.draw()),
            Command::Put(place) => Some(self.put(place)),
            Command::Clear => Some(self.clear()),
            Command::Heap(_) | Command::Rack(_) | Command::Sheet => None,
        }
    }

    // The heap that is there, to be looked at.
    pub fn heap(&self) -> Option<&H>
        ensures { option_copied result ≡ self.now.heap }
    {
        self.heap.as_ref()
    }
}

// A block's numbers. A script keeps no blocks, and gives one back by its start alone;
// but a block can only be spent with a place and a key, so it gets ones that nobody uses.
fn granted(block: Bare) -> Reply
    ensures { result ≡ Reply.Granted block.start block.held }
{
    let Parts { start, held, .. } = block.keyed(0, 0).parts();
    Reply::Granted { start, held }
}
