// So many blocks wait at most.
pub(crate) const MOST_WAITING: usize = 16;
