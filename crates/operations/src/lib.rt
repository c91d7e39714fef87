// Operations: the table of the 22 codes, records of plain numbers, and programs whose records have been vetted.
#![tactic(auto)]

pub mod code;
pub mod listing;
pub mod operation;
pub mod program;
pub mod step;
pub mod unknown;
pub mod uses;
pub mod vetting;
