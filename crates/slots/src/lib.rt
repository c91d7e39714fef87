// The slot heap: sixteen slots of 256 bytes, held whole and granted in turn.
#![tactic(auto)]

pub mod heap;
pub mod laws;
