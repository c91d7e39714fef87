// What a host asks of a machine.
use operations::operation::Operation;
use operations::program::Program;

#[derive(Clone, Copy, Debug, PartialEq, Eq)]
pub enum Action {
    // Begins at an entry.
    Start(u64),
    // Goes on with a budget of operations.
    Run(u32),
    // Performs one operation, brought as a record of plain numbers.
    Press(Operation),
}

// An action with the program that it brings; a press uses none.
#[derive(Clone, Copy)]
pub struct Call<'a> {
    pub program: &'a Program,
    pub action: Action,
}
