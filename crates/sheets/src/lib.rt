// The placement sheet of a heap: its blocks and gaps by address, as values and as lines.
#![tactic(auto)]

pub mod drawing;
pub mod sheet;
pub mod stretch;
#[cfg(test)]
mod tests;
