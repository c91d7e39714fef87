// A heap and a rack that scripts work on, and what the calls reply.
#![tactic(auto)]

pub mod bench;
pub mod reply;
