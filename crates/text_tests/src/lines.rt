// A later line: refusal 2, then 8, 4 and 5. The list of these rows has room for four records.
use crate::rows::{Row, all_read};
use std::test::Fail;

#[rattlefmt::skip]
const LINES: [Row; 22] = [
    Row { text: b"op,d,a,b,n\nstop,,,,\n", answer: Ok(1) },
    Row { text: b"op,d,a,b,n\nstop,,,,\nret,,,,\nset,1,,,5\n", answer: Ok(3) },
    // No end, told before any other check of the line.
    Row { text: b"op,d,a,b,n\nstop,,,,", answer: Err((2, 2)) },
    Row { text: b"op,d,a,b,n\nstop,,,,\nset,1,,,5", answer: Err((2, 3)) },
    Row { text: b"op,d,a,b,n\nstop", answer: Err((2, 2)) },
    Row { text: b"op,d,a,b,n\nstop,,,,,", answer: Err((2, 2)) },
    Row { text: b"op,d,a,b,n\nhalt,,,,", answer: Err((2, 2)) },
    // Not five values, told before an unknown word.
    Row { text: b"op,d,a,b,n\n\n", answer: Err((4, 2)) },
    Row { text: b"op,d,a,b,n\nstop,,,,\n\nstop,,,,\n", answer: Err((4, 3)) },
    Row { text: b"op,d,a,b,n\nstop,,,,\n\n", answer: Err((4, 3)) },
    Row { text: b"op,d,a,b,n\nstop\n", answer: Err((4, 2)) },
    Row { text: b"op,d,a,b,n\nstop,,,\n", answer: Err((4, 2)) },
    Row { text: b"op,d,a,b,n\nstop,,,,,\n", answer: Err((4, 2)) },
    Row { text: b"op,d,a,b,n\nhalt,,,\n", answer: Err((4, 2)) },
    Row { text: b"op,d,a,b,n\n\r\n", answer: Err((4, 2)) },
    // A full list, told before the number of values and the word, and after a missing end.
    Row { text: b"op,d,a,b,n\nret,,,,\nret,,,,\nret,,,,\nret,,,,\n", answer: Ok(4) },
    Row { text: b"op,d,a,b,n\nret,,,,\nret,,,,\nret,,,,\nret,,,,\nret,,,,\n", answer: Err((8, 6)) },
    Row { text: b"op,d,a,b,n\nret,,,,\nret,,,,\nret,,,,\nret,,,,\nret,,,\n", answer: Err((8, 6)) },
    Row { text: b"op,d,a,b,n\nret,,,,\nret,,,,\nret,,,,\nret,,,,\nhalt,,,,\n", answer: Err((8, 6)) },
    Row { text: b"op,d,a,b,n\nret,,,,\nret,,,,\nret,,,,\nret,,,,\n\n", answer: Err((8, 6)) },
    Row { text: b"op,d,a,b,n\nret,,,,\nret,,,,\nret,,,,\nret,,,,\nret", answer: Err((2, 6)) },
    Row { text: b"op,d,a,b,n\nret,,,,\nret,,,,\nret,,,\nret,,,,\nret", answer: Err((4, 4)) },
];

#[rattlefmt::skip]
const WORDS: [Row; 18] = [
    Row { text: b"op,d,a,b,n\nhalt,,,,\n", answer: Err((5, 2)) },
    Row { text: b"op,d,a,b,n\nstop,,,,\nhalt,,,,\n", answer: Err((5, 3)) },
    // A blank and a number are no words.
    Row { text: b"op,d,a,b,n\n,,,,\n", answer: Err((5, 2)) },
    Row { text: b"op,d,a,b,n\n,1,,,5\n", answer: Err((5, 2)) },
    Row { text: b"op,d,a,b,n\n0,,,,\n", answer: Err((5, 2)) },
    Row { text: b"op,d,a,b,n\n-1,,,,\n", answer: Err((5, 2)) },
    // Nearly a word.
    Row { text: b"op,d,a,b,n\nStop,,,,\n", answer: Err((5, 2)) },
    Row { text: b"op,d,a,b,n\nsto,,,,\n", answer: Err((5, 2)) },
    Row { text: b"op,d,a,b,n\nstopp,,,,\n", answer: Err((5, 2)) },
    Row { text: b"op,d,a,b,n\n stop,,,,\n", answer: Err((5, 2)) },
    Row { text: b"op,d,a,b,n\nstop ,,,,\n", answer: Err((5, 2)) },
    Row { text: b"op,d,a,b,n\n\xf3stop,,,,\n", answer: Err((5, 2)) },
    // The word is told before blanks and numbers, also where it stands last.
    Row { text: b"op,d,a,b,n\nhalt,x,16,,\n", answer: Err((5, 2)) },
    Row { text: b"n,b,a,d,op\nx,,16,,halt\n", answer: Err((5, 2)) },
    Row { text: b"n,b,a,d,op\n,,,,stop\r\n", answer: Err((5, 2)) },
    // The values go by the order of the names, and not by what they look like.
    Row { text: b"n,b,a,d,op\nstop,,,,\n", answer: Err((5, 2)) },
    // The first line with a fault is the one that is told.
    Row { text: b"op,d,a,b,n\nhalt,,,,\n\nstop", answer: Err((5, 2)) },
    Row { text: b"op,d,a,b,n\nset,1,,,\nhalt,,,,\n", answer: Err((7, 2)) },
];

#[test]
fn lines(rt: HostRuntime) -> Result<(), Fail> {
    all_read(&rt, &LINES)
}

#[test]
fn words(rt: HostRuntime) -> Result<(), Fail> {
    all_read(&rt, &WORDS)
}
