// What travels beside an address.

// Where the memory behind an address begins and ends (the first address past it), the key that it was granted under,
// and the place of its lock. The address is good while the lock holds the key.
#[derive(Clone, Copy, Debug, PartialEq, Eq)]
pub struct Sidecar {
    pub base: u64,
    pub bound: u64,
    pub key: u64,
    pub place: u16,
}
