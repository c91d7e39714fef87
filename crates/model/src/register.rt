// What a register holds.
use crate::sidecar::Sidecar;

// Its word, and what travels beside it.
#[derive(Clone, Copy, Debug, PartialEq, Eq)]
pub struct Register {
    pub word: u64,
    pub sidecar: Option<Sidecar>,
}
