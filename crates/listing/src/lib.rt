// Lists modules: each operation, or why the module is refused.
#![tactic(auto)]

mod lines;
pub mod listing;
mod modules;
