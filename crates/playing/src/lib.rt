// Plays scripts: the heaps and racks that they name, and what is printed.
#![tactic(auto)]

pub mod chosen;
pub mod play;
