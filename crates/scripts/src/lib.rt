// Scripts: lines of calls on a heap and a rack, and what each line says.
#![tactic(auto)]

pub mod command;
pub mod lines;
pub mod names;
mod words;
