// A ring of items, seen as the list of them.
ghost use Rattle.std.specs.Prelude.{◌≡◌, ◌-◌, ◌<◌, ◌↔◌, [], ◌∷◌, ◌++◌, length, IsOk, OnOk, OnErr, IfErr, MatchOption};
ghost use Rattle.rings.specs.Window.{cell};

use std::marker::Model;

#[derive(Drop)]
pub struct Ring<T, const N: usize> {
    // The items stand from `first` on, and go on at cell 0 where they reach the end.
    // Cells of our own, since the library's ring is on the heap, and making one with room can fail.
    pub(crate) cells: [T; N],
    pub(crate) first: usize,
    pub(crate) count: usize,
}

// Clauses see the items, the front one first.
impl<T, const N: usize> Model for Ring<T, N> {
    ghost use Rattle.std.specs.Prelude.{◌<◌, ◌≤◌, List, max};
    ghost use Rattle.rings.specs.Window.{window};

    ghost Value = { List T };

    ghost view = { λ r. window r.first r.count r.cells };

    ghost invariant = { λ r. (r.first < max 1 N) × (r.count ≤ N) };
}

// The cell that is so many steps after another, of `cells` in a ring. A function of the fields, since a method sees the items
// alone; without a remainder, so that nothing is asked of N.
#[inline]
fn after(cells: usize, first: usize, steps: usize) -> usize
    requires { first < cells }
    ensures { result ≡ cell cells first steps }
{
    let to_end = cells - first;
    if steps < to_end {
        first + steps
    } else {
        steps - to_end
    }
}

// The cell next to another, as the one a step after it.
#[inline]
fn next(cells: usize, first: usize) -> usize
    requires { first < cells }
    ensures { result ≡ cell cells first 1 }
{
    if first == cells - 1 { 0 } else { first + 1 }
}

// The cell before another: the last one that the steps after it come to.
#[inline]
fn before(cells: usize, first: usize) -> usize
    requires { first < cells }
    ensures { result ≡ cell cells first (cells - 1) }
{
    if first == 0 { cells - 1 } else { first - 1 }
}

// The ring that has all of them, and is full.
impl<T, const N: usize> From<[T; N]> for Ring<T, N> {
    ghost from_gives = { λ items ring. ring ≡ items };

    #[inline]
    fn from(items: [T; N]) -> Ring<T, N> {
        Ring {
            cells: items,
            first: 0,
            count: N,
        }
    }
}

impl<T: Copy + Default, const N: usize> Ring<T, N> {
    // A ring with nothing in it.
    #[inline]
    pub fn new() -> Ring<T, N>
        ensures { result ≡ [] }
    {
        Ring {
            cells: [T::default(); N],
            first: 0,
            count: 0,
        }
    }
}

impl<T: Copy, const N: usize> Ring<T, N> {
    // Puts an item last, or hands it back where there is no room.
    #[inline]
    pub fn push_back(&mut self, item: T) -> Result<(), T>
        ensures room { IsOk result ↔ (length self.old < N) }
        ensures joins { OnOk result (self.new ≡ self.old ++ item ∷ []) }
        ensures stays { OnErr result (self.new ≡ self.old) }
        ensures back { IfErr result (λ x. x ≡ item) }
    {
        if self.is_full() {
            return Err(item);
        }
        self.cells[after(N, self.first, self.count)] = item;
        self.count += 1;
        Ok(())
    }

    // Puts an item first, or hands it back where there is no room.
    #[inline]
    pub fn push_front(&mut self, item: T) -> Result<(), T>
        ensures room { IsOk result ↔ (length self.old < N) }
        ensures joins { OnOk result (self.new ≡ item ∷ self.old) }
        ensures stays { OnErr result (self.new ≡ self.old) }
        ensures back { IfErr result (λ x. x ≡ item) }
    {
        if self.is_full() {
            return Err(item);
        }
        let first = before(N, self.first);
        let count = self.count + 1;
        self.cells[first] = item;
        self.first = first;
        self.count = count;
        Ok(())
    }

    // Takes the first item out.
    #[inline]
    pub fn pop_front(&mut self) -> Option<T>
        ensures { MatchOption result ((self.old ≡ []) × (self.new ≡ [])) (λ x. self.old ≡ x ∷ self.new) }
    {
        if self.is_empty() {
            return None;
        }
        let item = self.cells[self.first];
        self.first = next(N, self.first);
        self.count -= 1;
        Some(item)
    }

    // Takes the last item out.
    #[inline]
    pub fn pop_back(&mut self) -> Option<T>
        ensures { MatchOption result ((self.old ≡ []) × (self.new ≡ [])) (λ x. self.old ≡ self.new ++ x ∷ []) }
    {
        if self.is_empty() {
            return None;
        }
        self.count -= 1;
        Some(self.cells[after(N, self.first, self.count)])
    }
}

impl<T, const N: usize> Ring<T, N> {
    #[inline]
    pub fn clear(&mut self)
        ensures { self.new ≡ [] }
    {
        self.count = 0;
    }

    // The items in two runs, one after the other. Where they part is the ring's own affair, so nobody outside sees them.
    #[inline]
    pub(crate) fn as_slices(&self) -> (&[T], &[T])
        ensures { result.0.now ++ result.1.now ≡ self.now }
    {
        let cells = &self.cells[..];
        let (round, from_first) = cells.split_at(self.first);
        if self.count <= from_first.len() {
            (&from_first[..self.count], &[])
        } else {
            (from_first, &round[..self.count - from_first.len()])
        }
    }
}
