// A quarantine over any heap: a block that is given waits before it goes below.
#![tactic(auto)]

pub mod heap;
pub mod laws;
mod limits;
