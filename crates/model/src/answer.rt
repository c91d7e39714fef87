// What a host is answered, if its call is not refused.
use crate::outcome::Outcome;

// The answer to a start, a run or a press.
#[derive(Clone, Copy, Debug, PartialEq, Eq)]
pub enum Answer {
    Started,
    // The operations done, their extra, and the outcome: a run is to answer these three.
    Ran(u32, u64, Outcome),
    // What an out handed out, if it was one.
    Pressed(Option<u64>),
}
