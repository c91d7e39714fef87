// An operation whose record has passed the check of its code and fields.
ghost use Rattle.std.specs.Prelude.{◌≡◌, IfOk};
ghost use Rattle.std.specs.Result.{result_ok};
ghost use Rattle.operations.specs.Records.{step_of, Registers};
ghost use Rattle.operations.specs.Sound.{inside, target_fits};

use crate::code::Code;
use crate::operation::Operation;
use crate::unknown::UnfitRecord;

// The fields of a record, with its number decoded. Not one type with the record, over what the code is: a record has any
// numbers and a step has passed a check, so what is made of one is not to be taken for the other.
#[derive(Clone, Copy, Debug, Default, PartialEq, Eq)]
pub struct Step {
    pub code: Code,
    pub d: u8,
    pub a: u8,
    pub b: u8,
    pub n: i64,
    pub line: u32,
}

// The record as a step, unless its code is unknown, a register in use is above 15, or a field not in use is not 0.
impl TryFrom<&Operation> for Step {
    type Error = UnfitRecord;

    ghost try_from_gives = { λ operation r. (result_ok r ≡ step_of operation.now) × IfOk r (λ s. Registers s) };

    fn try_from(operation: &Operation) -> Result<Step, UnfitRecord> {
        let code = Code::try_from(operation.code)?;
        let Operation {
            d,
            a,
            b,
            n,
            line,
            ..
        } = *operation;
        if !operation.fits(code.row().uses) {
            return Err(UnfitRecord);
        }
        Ok(Step {
            code,
            d,
            a,
            b,
            n,
            line,
        })
    }
}

impl Step {
    // Whether the step goes nowhere, or to a position of a program of so many.
    pub(crate) fn stays_within(self, count: usize) -> bool
        ensures { result ≡ target_fits count self.code self.n }
    {
        !self.code.has_target() || reaches(self.n, count)
    }
}

fn reaches(n: i64, count: usize) -> bool
    ensures { result ≡ inside n count }
{
    usize::try_from(n).is_ok_and(|position| position < count)
}
