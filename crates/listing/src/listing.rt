// Lists modules on standard output.
use crate::lines::{refusal_line, step_line, summary_line};
use crate::modules::program_in;
use operations::operation::Operation;
use operations::program::Program;
use operations::vetting::MOST_OPERATIONS;
use std::fs;

// Each module in turn. A refusal ends only its own module's listing.
// This and the reading of a file stand again in `playing`: a public function for both would take a closure and require that it
// may be called, or could have no contract, since none says what a file holds.
pub fn list_all(rt: &HostRuntime, names: &[String]) -> anyhow::Result<()> {
    for name in names {
        list_file(rt, name.as_str())?;
    }
    Ok(())
}

fn list_file(rt: &HostRuntime, name: &str) -> anyhow::Result<()> {
    let Ok(text) = fs::read(rt, name) else {
        println!(rt; "{name}: no file")?;
        return Ok(());
    };
    list_module(rt, name, &text)
}

fn list_module(rt: &HostRuntime, name: &str, text: &[u8]) -> anyhow::Result<()> {
    let mut list = vec![in rt.alloc(); Operation::default(); MOST_OPERATIONS]?;
    match program_in(text, &mut list) {
        Ok(program) => list_program(rt, name, &program),
        Err(fault) => Ok(rt.println(refusal_line(rt.alloc(), name, fault)?)?),
    }
}

fn list_program(rt: &HostRuntime, name: &str, program: &Program) -> anyhow::Result<()> {
    rt.println(summary_line(rt.alloc(), name, program.len())?)?;
    for (position, step) in program.steps().iter().enumerate() {
        rt.println(step_line(rt.alloc(), position, *step)?)?;
    }
    Ok(())
}
