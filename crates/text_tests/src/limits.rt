// Limits from both sides: bytes of a text, bytes of a line, operations, and room in the caller's list.
use crate::rows::check_read;
use operations_tests::answers::{Answer, UNREAD};
use std::alloc::{AllocError, Global};
use std::process::Abort;
use std::test::Fail;

// A text as what it begins with, what is repeated and how often, and what it ends with; and the list's length.
#[derive(Clone, Copy)]
struct Long {
    head: &'static [u8],
    unit: &'static [u8],
    times: usize,
    tail: &'static [u8],
    room: usize,
    answer: Answer,
}

const HEADER: &[u8] = b"op,d,a,b,n\n";

const STOP: &[u8] = b"stop,,,,\n";

// The longest text that could be read has 512 operations of at most 35 bytes. So at 60,000 bytes a text is refused for something else.
#[rattlefmt::skip]
const SIZES: [Long; 9] = [
    Long { head: b"", unit: b"\n", times: 0, tail: b"", room: 4, answer: Err((1, 0)) },
    Long { head: b"", unit: b"\n", times: 1, tail: b"", room: 4, answer: Err((3, 1)) },
    Long { head: b"", unit: b"x", times: 1, tail: b"", room: 4, answer: Err((2, 1)) },
    Long { head: b"", unit: b"\n", times: 60_000, tail: b"", room: 4, answer: Err((3, 1)) },
    Long { head: b"", unit: b"\n", times: 60_001, tail: b"", room: 4, answer: Err((1, 0)) },
    Long { head: b"", unit: b"x", times: 60_000, tail: b"", room: 4, answer: Err((2, 1)) },
    Long { head: b"", unit: b"x", times: 60_001, tail: b"", room: 4, answer: Err((1, 0)) },
    // 11 bytes, 6,665 times 9 bytes, and then 4 or 5: 60,000 or 60,001.
    Long { head: HEADER, unit: STOP, times: 6_665, tail: b"\n\n\n\n", room: 600, answer: Err((8, 514)) },
    Long { head: HEADER, unit: STOP, times: 6_665, tail: b"\n\n\n\n\n", room: 600, answer: Err((1, 0)) },
];

// No operation takes 80 bytes, so a line of 80 is refused for something else, which at 81 is not looked at.
#[rattlefmt::skip]
const WIDTHS: [Long; 15] = [
    Long { head: b"", unit: b"x", times: 80, tail: b"\n", room: 4, answer: Err((3, 1)) },
    Long { head: b"", unit: b"x", times: 81, tail: b"\n", room: 4, answer: Err((2, 1)) },
    Long { head: HEADER, unit: b"x", times: 80, tail: b"\n", room: 4, answer: Err((4, 2)) },
    Long { head: HEADER, unit: b"x", times: 81, tail: b"\n", room: 4, answer: Err((2, 2)) },
    Long { head: HEADER, unit: b"x", times: 80, tail: b"", room: 4, answer: Err((2, 2)) },
    // A full list is told after a line's length.
    Long { head: HEADER, unit: b"x", times: 80, tail: b"\n", room: 0, answer: Err((8, 2)) },
    Long { head: HEADER, unit: b"x", times: 81, tail: b"\n", room: 0, answer: Err((2, 2)) },
    // Six values: 9 bytes and 71 or 72.
    Long { head: b"op,d,a,b,n\nstop,,,,,", unit: b"x", times: 71, tail: b"\n", room: 4, answer: Err((4, 2)) },
    Long { head: b"op,d,a,b,n\nstop,,,,,", unit: b"x", times: 72, tail: b"\n", room: 4, answer: Err((2, 2)) },
    // An unknown word of 76 or 77 bytes, and four commas.
    Long { head: HEADER, unit: b"x", times: 76, tail: b",,,,\n", room: 4, answer: Err((5, 2)) },
    Long { head: HEADER, unit: b"x", times: 77, tail: b",,,,\n", room: 4, answer: Err((2, 2)) },
    // 8 bytes, and a number of 72 or 73 digits that is too large, or filled where it is not used.
    Long { head: b"op,d,a,b,n\nset,1,,,", unit: b"9", times: 72, tail: b"\n", room: 4, answer: Err((6, 2)) },
    Long { head: b"op,d,a,b,n\nset,1,,,", unit: b"9", times: 73, tail: b"\n", room: 4, answer: Err((2, 2)) },
    Long { head: b"op,d,a,b,n\nstop,,,,", unit: b"0", times: 72, tail: b"\n", room: 4, answer: Err((7, 2)) },
    Long { head: b"op,d,a,b,n\nstop,,,,", unit: b"0", times: 73, tail: b"\n", room: 4, answer: Err((2, 2)) },
];

#[rattlefmt::skip]
const COUNTS: [Long; 18] = [
    Long { head: HEADER, unit: STOP, times: 511, tail: b"", room: 600, answer: Ok(511) },
    Long { head: HEADER, unit: STOP, times: 512, tail: b"", room: 512, answer: Ok(512) },
    Long { head: HEADER, unit: STOP, times: 512, tail: b"", room: 513, answer: Ok(512) },
    Long { head: HEADER, unit: STOP, times: 513, tail: b"", room: 513, answer: Err((8, 514)) },
    Long { head: HEADER, unit: STOP, times: 514, tail: b"", room: 600, answer: Err((8, 514)) },
    // What stands in line 514 counts only where it has no end.
    Long { head: HEADER, unit: STOP, times: 512, tail: b"\n", room: 600, answer: Err((8, 514)) },
    Long { head: HEADER, unit: STOP, times: 512, tail: b"halt,,,\n", room: 600, answer: Err((8, 514)) },
    Long { head: HEADER, unit: STOP, times: 512, tail: b"stop,,,,", room: 600, answer: Err((2, 514)) },
    Long { head: HEADER, unit: STOP, times: 511, tail: b"\n", room: 600, answer: Err((4, 513)) },
    // A list too short by one.
    Long { head: HEADER, unit: STOP, times: 512, tail: b"", room: 511, answer: Err((8, 513)) },
    Long { head: HEADER, unit: STOP, times: 3, tail: b"", room: 2, answer: Err((8, 4)) },
    Long { head: HEADER, unit: STOP, times: 3, tail: b"", room: 3, answer: Ok(3) },
    Long { head: HEADER, unit: STOP, times: 2, tail: b"", room: 1, answer: Err((8, 3)) },
    // A list without a record.
    Long { head: HEADER, unit: STOP, times: 0, tail: b"", room: 0, answer: Ok(0) },
    Long { head: HEADER, unit: STOP, times: 1, tail: b"", room: 0, answer: Err((8, 2)) },
    Long { head: HEADER, unit: STOP, times: 0, tail: b"\n", room: 0, answer: Err((8, 2)) },
    Long { head: HEADER, unit: STOP, times: 0, tail: b"stop,,,,", room: 0, answer: Err((2, 2)) },
    Long { head: b"op,d,a,b\n", unit: STOP, times: 1, tail: b"", room: 0, answer: Err((3, 1)) },
];

fn text_of(heap: Global, row: &Long) -> Result<Vec<u8>, AllocError> {
    let mut text = Vec::new(heap);
    text.extend_from_slice(row.head)?;
    for _ in 0..row.times {
        text.extend_from_slice(row.unit)?;
    }
    text.extend_from_slice(row.tail)?;
    Ok(text)
}

// Every operation in these texts is a stop, so the lines say all of the records that were written.
fn all_limits(rt: &impl Abort, heap: Global, rows: &[Long]) -> Result<(), Fail> {
    for (i, row) in rows.iter().enumerate() {
        let text = text_of(heap, row)?;
        let mut list = vec![in heap; UNREAD; row.room]?;
        check_read(rt, text.as_slice(), list.as_mut_slice(), row.answer, i)?;
    }
    Ok(())
}

#[test]
fn sizes(rt: HostRuntime) -> Result<(), Fail> {
    all_limits(&rt, rt.alloc(), &SIZES)
}

#[test]
fn widths(rt: HostRuntime) -> Result<(), Fail> {
    all_limits(&rt, rt.alloc(), &WIDTHS)
}

#[test]
fn counts(rt: HostRuntime) -> Result<(), Fail> {
    all_limits(&rt, rt.alloc(), &COUNTS)
}
