// The placement sheet of a heap: its blocks and the gaps between them, by address.
ghost use Rattle.std.specs.Prelude.{◌≡◌, ◌-◌, ◌++◌, IfOk, Some, OnOk};
ghost use Rattle.sheets.specs.Sheets.{starts_at, gap_to, size_at, found_at, end_after, stretches_of, Shows, blocks_in, held_in};

use crate::stretch::{Kind, Stretch};
use heaps::heap::Heap;
use heaps::limits::HEAP_BYTES;
use std::alloc::{AllocError, Global};

// Where the heap ends. No try_from stands in a constant; the cast is proved.
pub(crate) const HEAP_END: u16 = HEAP_BYTES as u16;

// Blocks start at multiples of eight.
const CELL_BYTES: usize = 8;

// The stretches, how many of them are blocks, and how many bytes are held and free.
#[derive(Drop)]
pub struct Sheet {
    pub stretches: Vec<Stretch>,
    pub blocks: u64,
    pub held: u64,
    pub free: u64,
}

// The held size of the block that starts there, if one does and no block before it reaches so far.
fn starts_at<H: Heap>(heap: &H, start: u16, from: u16) -> Option<u64>
    ensures { result ≡ starts_at (H.rule.held (H.state heap.now)) start from }
{
    if start < from {
        return None;
    }
    heap.holds(u64::from(start))
}

// The gap between two addresses, if there is one.
fn push_gap(list: &mut Vec<Stretch>, from: u16, to: u16) -> Result<(), AllocError>
    ensures { OnOk result (list.new.items ≡ list.old.items ++ gap_to from to) }
{
    if from < to {
        list.push(Stretch {
            start: from,
            size: to - from,
            kind: Kind::Gap,
        })?;
    }
    Ok(())
}

// The bytes of a block, up to the end of the heap.
fn size_at(start: u16, held: u64) -> u16
    ensures { result ≡ size_at start held }
{
    let room = HEAP_END.saturating_sub(start);
    u16::try_from(held).map_or(room, |held| held.min(room))
}

// The gap before a block, and the block up to the end of the heap at most; answers where it ends.
fn push_block(list: &mut Vec<Stretch>, from: u16, start: u16, held: u64) -> Result<u16, AllocError>
    ensures { IfOk result (λ end. (end ≡ end_after (Some held) start from) × (list.new.items ≡ list.old.items ++ found_at (Some held) start from)) }
{
    push_gap(list, from, start)?;
    let size = size_at(start, held);
    list.push(Stretch {
        start,
        size,
        kind: Kind::Block,
    })?;
    Ok(start + size)
}

impl Sheet {
    pub fn of<H: Heap>(memory: Global, heap: &H) -> Result<Sheet, AllocError>
        ensures stretches { IfOk result (λ s. s.stretches.items ≡ stretches_of (H.rule.held (H.state heap.now))) }
        ensures blocks { IfOk result (λ s. s.blocks ≡ blocks_in (stretches_of (H.rule.held (H.state heap.now)))) }
        ensures held { IfOk result (λ s. s.held ≡ held_in (stretches_of (H.rule.held (H.state heap.now)))) }
        ensures free { IfOk result (λ s. s.free ≡ 4096 - s.held) }
        ensures law { Shows (H.rule.held (H.state heap.now)) (stretches_of (H.rule.held (H.state heap.now))) }
    {
        let mut list = Vec::new(memory);
        let mut from = 0;
        let mut blocks = 0;
        let mut held = 0;
        for start in (0..HEAP_END).step_by(CELL_BYTES) {
            if let Some(bytes) = starts_at(heap, start, from) {
                let end = push_block(&mut list, from, start, bytes)?;
                blocks += 1;
                held += u64::from(end - start);
                from = end;
            }
        }
        push_gap(&mut list, from, HEAP_END)?;
        Ok(Sheet {
            stretches: list,
            blocks,
            held,
            free: HEAP_BYTES - held,
        })
    }
}
