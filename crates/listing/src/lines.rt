// The lines that are printed, as text.
ghost use Rattle.std.specs.Prelude.{◌≡◌, IfOk, string_bytes};
ghost use Rattle.listing.specs.Lines.{step_line, summary_line};

use faults::fault::Fault;
use numerals::noun;
use operations::step::Step;
use std::alloc::{AllocError, Global};

// An operation by its position, which jumps and calls go by, and by its line, which a refusal names.
pub fn step_line(heap: Global, position: usize, step: Step) -> Result<String, AllocError>
    ensures { IfOk result (λ s. string_bytes s ≡ step_line position step) }
{
    let line = step.line;
    format!(in heap; "  {position}: line {line}: {step}")
}

// How many operations a module has.
pub fn summary_line(heap: Global, name: &str, count: usize) -> Result<String, AllocError>
    ensures { IfOk result (λ s. string_bytes s ≡ summary_line name.now count) }
{
    // no From leads from usize to u64
    let unit = noun(count as u64, "operation", "operations");
    format!(in heap; "{name}: {count} {unit}")
}

// Why a module is refused.
pub fn refusal_line(heap: Global, name: &str, fault: Fault) -> Result<String, AllocError> {
    let cause = fault.cause();
    format!(in heap; "{name}: {fault}: {cause}")
}
