// Why a run came back.

#[derive(Clone, Copy, Debug, PartialEq, Eq)]
pub enum Outcome {
    // The budget is used up, and neither of the others came.
    Spent,
    Out(u64),
    End,
}
