// The best-fit heap and its calls.
ghost use Rattle.std.specs.Prelude.{◌≡◌, ◌+◌, ◌<◌, ◌≤◌, IfSome};
ghost use Rattle.best_fit.specs.Top.{IsTop};
ghost use Rattle.best_fit.specs.Rule.{best_fit_rule, best_of, cell_at, cleared};
ghost use Rattle.best_fit.specs.Keeping.{best_fit_points};

use crate::gap::{CELLS, Gap, better};
use faults::cause::Cause;
use faults::fault::Fault;
use heaps::block::Bare;
use heaps::heap::Heap;
use heaps::limits::HEAP_BYTES;

const CELL_BYTES: u64 = 8;

#[derive(Drop)]
pub struct BestFit {
    // for each eight bytes, how many eights the block that starts there holds: 0 where none does, since the rule's state is
    // this row of counts, and an Option in each cell would double it
    cells: [u16; CELLS],
    // no block starts at this cell or above: a search may stop there
    top: usize,
    // A fact of the fields, and no model: a heap seen as a list alone would not tell its users how many cells it has.
    ghost searched: { IsTop top cells },
}

impl BestFit {
    pub fn new() -> BestFit
        ensures { result.cells ≡ cleared }
    {
        BestFit {
            cells: [0; CELLS],
            top: 0,
        }
    }

    // The smallest gap that suffices, of equal gaps the lowest.
    fn find(&self, need: usize) -> Option<Gap>
        requires { 1 ≤ need }
        ensures is { result ≡ best_of need None 0 0 0 self.now.cells }
        ensures inside { IfSome result (λ g. g.start + need ≤ 512) }
    {
        // An iterator over the gaps, with `filter` and `min`, took up to 1.3 times as long as this walk, where 1.2 is allowed.
        let mut best = None;
        let mut low = 0;
        let mut at = 0;
        while at < self.top {
            let held = usize::from(self.cells[at]);
            if held == 0 {
                at += 1;
            } else {
                best = better(need, best, low, at);
                at += held;
                low = at;
            }
        }
        better(need, best, low, CELLS)
    }

    // The cell of the living block that starts there.
    fn cell_at(&self, start: u64) -> Option<usize>
        ensures cell { result ≡ cell_at self.now.cells start }
        ensures within { IfSome result (λ i. i < 512) }
    {
        let cells = &self.cells;
        if start % CELL_BYTES != 0 {
            return None;
        }
        let cell = usize::try_from(start / CELL_BYTES).ok()?;
        let held = *cells.get(cell)?;
        (held > 0).then_some(cell)
    }
}

impl Heap for BestFit {
    ghost rule = { best_fit_rule };

    ghost state = { λ s. s.cells };

    ghost points = { best_fit_points };

    #[inline]
    fn take(&mut self, n: u64) -> Result<Bare, Fault> {
        if n == 0 || n > HEAP_BYTES {
            return Err(Fault::whole(Cause::TakeRefused));
        }
        // at most 512 by the test above, so a try_from would have an arm that no call takes
        let need = n.div_ceil(CELL_BYTES) as u16;
        let gap = self
            .find(usize::from(need))
            .ok_or_else(|| Fault::whole(Cause::TakeRefused))?;
        self.cells[gap.start] = need;
        self.top = self.top.max(gap.start + 1);
        // no From leads from usize to u64
        Bare::granted(
            CELL_BYTES * gap.start as u64,
            n,
            CELL_BYTES * u64::from(need),
        )
    }

    #[inline]
    fn give(&mut self, start: u64) -> Result<(), Fault> {
        let cell = self
            .cell_at(start)
            .ok_or_else(|| Fault::whole(Cause::GiveRefused))?;
        self.cells[cell] = 0;
        if cell + 1 == self.top {
            self.top = cell;
        }
        Ok(())
    }

    #[inline]
    fn holds(&self, start: u64) -> Option<u64> {
        self.cell_at(start)
            .map(|cell| CELL_BYTES * u64::from(self.cells[cell]))
    }

    fn clear(&mut self) {
        *self = BestFit::new();
    }
}
