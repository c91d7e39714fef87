// The reader of a module's text.
#![tactic(auto)]

mod columns;
mod entries;
mod line;
pub mod reader;
mod rest;
mod values;
