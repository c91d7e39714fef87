// The reader: a module's text into the caller's list.
ghost use Rattle.std.specs.Prelude.{◌≡◌, [], length, drop};
ghost use Rattle.form.specs.Pieces.{pieces};
ghost use Rattle.form.specs.Promise.{Formed};
ghost use Rattle.form.specs.Reading.{onward, reading, answer, list_after};

use crate::columns::Columns;
use crate::entries::{entry_of, heading_of, line_number};
use crate::rest::Rest;
use faults::cause::Cause;
use faults::fault::Fault;
use operations::operation::Operation;

// The most bytes of a text.
const LARGEST: usize = 60_000;

// Reads a module's text into the front of the list, and answers how many operations it has.
pub fn read(text: &[u8], list: &mut [Operation]) -> Result<usize, Fault>
    ensures value { result ≡ answer (reading text.now (length list.old)) }
    ensures after { list.new ≡ list_after (reading text.now (length list.old)) list.old }
    ensures form { Formed text.now list.old list.new result }
{
    if text.is_empty() || text.len() > LARGEST {
        return Err(Fault::whole(Cause::TextSize));
    }
    let (columns, rest) = heading_of(Rest::of(text)).map_err(|cause| Fault::at(cause, 1))?;
    read_lines(rest, columns, list)
}

// The lines that are left into the list, from its front.
fn read_lines(rest: Rest<'_>, columns: Columns, list: &mut [Operation]) -> Result<usize, Fault>
    ensures value { result ≡ answer (onward columns.order (length list.old) [] (pieces 10 (drop rest.entry.at rest.entry.text.now))) }
    ensures after { list.new ≡ list_after (onward columns.order (length list.old) [] (pieces 10 (drop rest.entry.at rest.entry.text.now))) list.old }
{
    let mut left = rest;
    for (count, place) in list.iter_mut().enumerate() {
        if left.is_empty() {
            return Ok(count);
        }
        let line = line_number(count);
        let (entry, next) = entry_of(left, columns, count).map_err(|cause| Fault::at(cause, line))?;
        *place = entry;
        left = next;
    }
    if left.is_empty() {
        Ok(list.len())
    } else {
        Err(Fault::at(left.blame(Cause::NoRoom), line_number(list.len())))
    }
}
