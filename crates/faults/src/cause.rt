// Why a call is refused: one case for each refusal, with its number, its part, whether it names a line, and a sentence.
ghost use Rattle.std.specs.Prelude.{◌≡◌};
ghost use Rattle.faults.specs.Causes.{number_of, part_of, has_line};

use crate::part::Part;
use thiserror::Error;

// Each case stands with its number, and with what a module's author is told: one sentence, without number and line.
// The stored outputs of the programs hold the sentences.
#[derive(Clone, Copy, Debug, PartialEq, Eq, Error)]
pub enum Cause {
    // Reading a text.
    #[error("the text has no byte, or over 60,000 bytes")]
    TextSize = 1,
    #[error("the line has over 80 bytes, or no line end")]
    LineEnd = 2,
    #[error("the first line does not name the columns op, d, a, b and n, each once")]
    ColumnNames = 3,
    #[error("the line does not have five values")]
    ValueCount = 4,
    #[error("the op column does not have the word of an operation")]
    UnknownWord = 5,
    #[error("a value is no plain number, no register from 0 to 15, or too large for n")]
    BadNumber = 6,
    #[error("a column that the operation uses is blank, or one that it does not use is filled")]
    WrongBlank = 7,
    #[error("there are over 512 operations, or more than the list has room for")]
    NoRoom = 8,
    // Vetting records.
    #[error("there is no operation")]
    NoOperation = 9,
    #[error("the jump or call leads outside the program")]
    BadTarget = 10,
    #[error("the record has an unknown code, a register above 15, or an unused field that is not 0")]
    BadRecord = 11,
    // An operation of the machine.
    #[error("the register holds a plain number and not an address")]
    NoSidecar = 20,
    #[error("the memory behind the address has been given up")]
    Ended = 21,
    #[error("the access goes outside the memory behind the address")]
    OutOfBounds = 22,
    #[error("a word stands only at a multiple of eight")]
    Uneven = 23,
    #[error("only memory that was grabbed can be released")]
    NotFromHeap = 24,
    #[error("the machine has issued its last key")]
    NoKey = 25,
    #[error("64 calls are open already")]
    FrameLimit = 26,
    #[error("no call is open")]
    NoFrame = 27,
    #[error("the divisor is 0")]
    ZeroDivisor = 28,
    // Driving the machine.
    #[error("the run has left the program")]
    OffProgram = 29,
    #[error("the machine was not started, or has stopped")]
    NotGoing = 30,
    #[error("stop, jump, jzero, call and ret cannot be pressed")]
    NotForPress = 31,
    #[error("the pressed record has an unknown code, a register above 15, or an unused field that is not 0")]
    BadPress = 32,
    #[error("there is no register above 15")]
    NoRegister = 33,
    #[error("the entry lies outside the program")]
    BadEntry = 34,
    // A heap.
    #[error("the heap has no block of this size")]
    TakeRefused = 40,
    #[error("no living block starts there")]
    GiveRefused = 41,
    // A rack.
    #[error("all 255 places are out")]
    DrawRefused = 42,
    #[error("the place is not out")]
    PutRefused = 43,
}

impl Cause {
    // The number under which the refusal is known.
    pub fn number(self) -> u8
        ensures { result ≡ number_of self }
    {
        self as u8
    }

    // The part that refuses: below 20 the text, from 40 on the heap or the rack, else the machine.
    // Told by the numbers, as the table of refusals is: by the cases it would be thirty names.
    pub fn part(self) -> Part
        ensures { result ≡ part_of self }
    {
        match self.number() {
            0..=19 => Part::Text,
            40 | 41 => Part::Heap,
            42 | 43 => Part::Rack,
            _ => Part::Machine,
        }
    }

    // Whether the refusal names a line; those of a text or a call as a whole do not.
    pub fn has_line(self) -> bool
        ensures { result ≡ has_line self }
    {
        !matches!(self.number(), 1 | 9 | 29 | 30 | 33..=43)
    }
}
