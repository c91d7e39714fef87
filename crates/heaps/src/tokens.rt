// How blocks are made, read and spent.
ghost use Rattle.std.specs.Prelude.{◌≡◌, ◌+◌, ◌≤◌, IfOk};
ghost use Rattle.heaps.specs.Answers.{plain, bare_block};

use crate::block::{Bare, Keyed, Parts};
use crate::limits::HEAP_BYTES;
use faults::cause::Cause;
use faults::fault::Fault;

impl Bare {
    // What a heap grants: so many bytes from a start on, for those asked for.
    // Numbers that do not describe such a block inside the heap are refused as a take is.
    pub fn granted(start: u64, asked: u64, held: u64) -> Result<Bare, Fault>
        ensures is { plain result ≡ bare_block start asked held }
        ensures asks { IfOk result (λ b. b.asked ≡ asked) }
    {
        if asked > held || held > HEAP_BYTES || start > HEAP_BYTES - held {
            return Err(Fault::whole(Cause::TakeRefused));
        }
        Ok(Bare { start, asked, held })
    }

    pub fn start(&self) -> u64
        ensures { result ≡ self.now.start }
    {
        self.start
    }

    pub fn asked(&self) -> u64
        ensures { result ≡ self.now.asked }
    {
        self.asked
    }

    pub fn held(&self) -> u64
        ensures { result ≡ self.now.held }
    {
        self.held
    }

    // The block with a place and a key.
    pub fn keyed(self, place: u8, key: u64) -> Keyed
        ensures { result ≡ record { block = self; place = place; key = key } }
    {
        Keyed {
            block: self,
            place,
            key,
        }
    }
}

impl Keyed {
    // The block's numbers. This spends it.
    pub fn parts(self) -> Parts
        ensures is { result ≡ record { start = self.block.start; asked = self.block.asked; held = self.block.held; place = self.place; key = self.key } }
        ensures inside { (result.asked ≤ result.held) × (result.start + result.held ≤ 4096) }
    {
        let Keyed { block, place, key } = self;
        let Bare { start, asked, held } = block;
        Parts {
            start,
            asked,
            held,
            place,
            key,
        }
    }
}
