// The best-fit heap: a block lies at the low end of the smallest gap that suffices.
#![tactic(auto)]

mod gap;
pub mod heap;
pub mod laws;
