// Lock racks: what every rack does and keeps, and two racks that differ in which place is drawn next.
#![tactic(auto)]

pub mod joins;
pub mod laws;
pub mod place_rack;
mod places;
pub mod rack;
pub mod ring;
pub mod stack;
