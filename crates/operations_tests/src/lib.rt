// What vetting, the table of operations and refusals do on examples.
#![tactic(auto)]

pub mod answers;
#[cfg(test)]
mod refusals;
#[cfg(test)]
mod tables;
#[cfg(test)]
mod vetting;
