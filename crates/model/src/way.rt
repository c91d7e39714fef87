// The way that an operation goes, if its checks pass; else the cause stands in its place, and nothing was done.

#[derive(Clone, Copy, Debug, PartialEq, Eq)]
pub enum Way {
    // On to the next position.
    Next,
    // On to another position.
    Jumped(u64),
    // The run ends.
    Stopped,
    // The run hands out a value.
    Answered(u64),
}
