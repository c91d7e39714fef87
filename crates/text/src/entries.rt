// A line by its place in the text: the first as the order of the columns, a later one as an operation.
ghost use Rattle.std.specs.Prelude.{◌≡◌, ◌+◌, ◌≤◌, MatchResult};
ghost use Rattle.form.specs.Reading.{heading, entry};
ghost use Rattle.text.specs.Lines.{Passes, Fails};

use crate::columns::Columns;
use crate::rest::Rest;
use faults::cause::Cause;
use operations::operation::Operation;
use operations::vetting::MOST_OPERATIONS;

// The first line as the order of the columns, and what follows it.
pub(crate) fn heading_of<'a>(rest: Rest<'a>) -> Result<(Columns, Rest<'a>), Cause>
    ensures { MatchResult result
        (λ p. (p.1.text.now ≡ rest.entry.text.now) × Passes heading rest.entry.text.now rest.entry.at p.0.order p.1.at)
        (λ c. Fails heading rest.entry.text.now rest.entry.at c) }
{
    let line = rest.line(Cause::ColumnNames)?;
    let columns = Columns::named_in(&line).ok_or(Cause::ColumnNames)?;
    Ok((columns, line.after()))
}

// A later line as the operation after `count` others, and what follows it.
pub(crate) fn entry_of<'a>(
    rest: Rest<'a>,
    columns: Columns,
    count: usize,
) -> Result<(Operation, Rest<'a>), Cause>
    ensures { MatchResult result
        (λ p. (p.1.text.now ≡ rest.entry.text.now) × Passes (entry columns.order 512 count) rest.entry.text.now rest.entry.at p.0 p.1.at)
        (λ c. Fails (entry columns.order 512 count) rest.entry.text.now rest.entry.at c) }
{
    if count >= MOST_OPERATIONS {
        return Err(rest.blame(Cause::NoRoom));
    }
    let line = rest.line(Cause::ValueCount)?;
    let operation = columns.operation(&line, line_number(count))?;
    Ok((operation, line.after()))
}

// The number of the line after `count` operations: the names stand in line 1. The cast loses nothing, and a conversion that can fail would need an answer for what cannot come.
pub(crate) fn line_number(count: usize) -> u32
    requires { count ≤ 512 }
    ensures { result ≡ count + 2 }
{
    count as u32 + 2
}
