// Heaps: what every heap does and keeps, and the blocks that it grants.
#![tactic(auto)]

pub mod block;
pub mod heap;
pub mod laws;
pub mod limits;
mod tokens;
