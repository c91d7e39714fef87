// Whether a run may go on.

// Idle from making and from a stop on, going from a start on, halted from a fault of a run on.
#[derive(Clone, Copy, Debug, PartialEq, Eq)]
pub enum Phase {
    Idle,
    Going,
    Halted,
}
