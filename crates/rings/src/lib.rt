// A ring: a row of so many items at most, which join and leave at either end in constant time, with nothing allocated.
#![tactic(auto)]

mod reads;
pub mod ring;
#[cfg(test)]
mod tests;
