// Gaps between blocks, and which of two is used first. Places and sizes are counted in cells of eight bytes.
ghost use Rattle.std.specs.Prelude.{◌≡◌};
ghost use Rattle.best_fit.specs.Rule as rule;

// How many cells a heap has.
pub const CELLS: usize = 512;

// A stretch of cells in no living block. The lesser of two is used first: the smaller one, of equal ones the lower.
#[derive(Clone, Copy, PartialEq, Eq, PartialOrd, Ord)]
pub struct Gap {
    pub size: usize,
    pub start: usize,
}

// The better of the best gap so far and the stretch from low up to at, if that suffices.
pub(crate) fn better(need: usize, best: Option<Gap>, low: usize, at: usize) -> Option<Gap>
    ensures { result ≡ rule.better need best low at }
{
    let gap = Gap {
        size: at.saturating_sub(low),
        start: low,
    };
    if gap.size < need {
        return best;
    }
    Some(best.map_or(gap, |best| best.min(gap)))
}
