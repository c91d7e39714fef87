// The model: what the machine does, what a plain history book says, and the theorem that they agree.
#![tactic(auto)]

pub mod answer;
pub mod call;
pub mod laws;
pub mod outcome;
pub mod phase;
pub mod refusal;
pub mod register;
pub mod sidecar;
pub mod tables;
pub mod way;
