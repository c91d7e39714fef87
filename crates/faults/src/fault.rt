// A refusal, with its number, line and part.
ghost use Rattle.std.specs.Prelude.{◌≡◌, Some};
ghost use Rattle.faults.specs.Causes.{number_of, part_of};
ghost use Rattle.faults.specs.Faults.{fault_at, whole_fault, shown_fault};

use crate::cause::Cause;
use crate::part::Part;
use std::error::Error;
use std::fmt;

#[derive(Clone, Copy, Debug, PartialEq, Eq)]
pub struct Fault {
    cause: Cause,
    // 0 where the cause names none, and no Option: a fault is answered and printed with the number 0 then.
    line: u32,
}

impl Fault {
    // A cause met at a line; the line is kept only where the cause names one.
    pub fn at(cause: Cause, line: u32) -> Fault
        ensures { result ≡ fault_at cause line }
    {
        Fault {
            cause,
            line: if cause.has_line() { line } else { 0 },
        }
    }

    // A cause of the whole call.
    pub fn whole(cause: Cause) -> Fault
        ensures { result ≡ whole_fault cause }
    {
        Fault { cause, line: 0 }
    }

    pub fn cause(self) -> Cause
        ensures { result ≡ self.cause }
    {
        self.cause
    }

    pub fn line(self) -> u32
        ensures { result ≡ self.line }
    {
        self.line
    }

    pub fn number(self) -> u8
        ensures { result ≡ number_of self.cause }
    {
        self.cause.number()
    }

    pub fn part(self) -> Part
        ensures { result ≡ part_of self.cause }
    {
        self.cause.part()
    }
}

// By hand, since clauses know what is printed by `output`, which no derive gives.
impl fmt::Display for Fault {
    ghost output = { λ f. Some (shown_fault f) };

    fn fmt<W: fmt::Write>(&self, f: &mut fmt::Formatter<W>) -> fmt::Result {
        let Fault { cause, line } = *self;
        write!(f, "fault {}, line {line}, {}", cause.number(), cause.part())
    }
}

impl Error for Fault {}
