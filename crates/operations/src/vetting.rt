// Vetting: records from anywhere into a program.
ghost use Rattle.std.specs.Prelude.{◌≡◌, IfOk};
ghost use Rattle.operations.specs.Programs.{Vetted};
ghost use Rattle.operations.specs.Sound.{SoundStep};
ghost use Rattle.operations.specs.Vetting.{vetting, vet_record};

use crate::operation::Operation;
use crate::program::Program;
use crate::step::Step;
use arrayvec::ArrayVec;
use faults::cause::Cause;
use faults::fault::Fault;

// The most operations of a program.
pub const MOST_OPERATIONS: usize = 512;

// The records as a program: at least one and at most 512 of them, each with code and fields in order and with its target inside the program.
pub fn vet(operations: &[Operation]) -> Result<Program, Fault>
    ensures value { result ≡ vetting operations.now }
    ensures law { Vetted operations.now result }
{
    let count = operations.len();
    if operations.is_empty() {
        return Err(Fault::whole(Cause::NoOperation));
    }
    if count > MOST_OPERATIONS {
        return Err(Fault::whole(Cause::NoRoom));
    }
    let mut steps = ArrayVec::new();
    for operation in operations {
        steps.push(vet_record(operation, count)?);
    }
    Ok(Program { steps })
}

// One record of a program of so many: its code and fields first, then its target.
#[tactic(auto, using(crate::proofs::Fits::gave))]
fn vet_record(operation: &Operation, count: usize) -> Result<Step, Fault>
    ensures value { result ≡ vet_record count operation.now }
    ensures sound { IfOk result (λ s. SoundStep count s) }
{
    let Ok(step) = Step::try_from(operation) else {
        return Err(Fault::at(Cause::BadRecord, operation.line));
    };
    if step.stays_within(count) {
        Ok(step)
    } else {
        Err(Fault::at(Cause::BadTarget, operation.line))
    }
}
