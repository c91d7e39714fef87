// Refusals: why a call was refused, by which part of the product, and at which line of a text.
#![tactic(auto)]

pub mod cause;
pub mod fault;
pub mod part;
