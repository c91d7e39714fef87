// What the tests of reading and of vetting expect.
use faults::fault::Fault;
use faults::part::Part;
use operations::operation::Operation;

// How many operations there are, or the number and the line of the fault.
pub type Answer = Result<usize, (u8, u32)>;

// A record that no text gives, so that one that was written is told from one that was not.
pub const UNREAD: Operation = Operation {
    code: 77,
    d: 1,
    a: 2,
    b: 3,
    n: 4,
    line: 5,
};

// The short form of a fault. Each fault of reading and vetting is of the part text, so another part answers a number that no row has; an Option for it would stand in every row.
pub fn told(fault: Fault) -> (u8, u32) {
    let number = if fault.part() == Part::Text {
        fault.number()
    } else {
        0
    };
    (number, fault.line())
}
