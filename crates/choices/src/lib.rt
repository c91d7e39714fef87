// Heaps and racks that are chosen when the program runs: one of two, and of more by nesting.
#![tactic(auto)]

pub mod choice;
mod heap;
mod rack;
