// What a module's text means: its form, the checks in their order, and what reading it gives.
// Theory for the reader, checked once; the code stands in the crates above.
#![tactic(auto)]

pub mod order;
