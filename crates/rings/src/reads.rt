// What is asked of a ring.
ghost use Rattle.std.specs.Prelude.{◌≡◌, ◌==◌, ◌≤◌, length};
ghost use Rattle.std.specs.List.{list_any};

use crate::ring::Ring;

impl<T, const N: usize> Ring<T, N> {
    #[inline]
    pub fn len(&self) -> usize
        ensures len { result ≡ length self.now }
        ensures within { result ≤ N }
    {
        self.count
    }

    #[inline]
    pub fn is_empty(&self) -> bool
        ensures { result ≡ (length self.now == 0) }
    {
        self.len() == 0
    }

    #[inline]
    pub fn is_full(&self) -> bool
        ensures full { result ≡ (length self.now == N) }
        ensures within { length self.now ≤ N }
    {
        self.len() >= N
    }

    pub fn contains(&self, item: &T) -> bool
    where
        T: PartialEq,
        ensures { result ≡ list_any (λ x. T.eq x item.now) self.now }
    {
        let (front, back) = self.as_slices();
        front.contains(item) || back.contains(item)
    }
}
