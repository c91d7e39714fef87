// The first line: refusal 2, then 3.
use crate::rows::{Row, all_read};
use std::test::Fail;

#[rattlefmt::skip]
const HEADERS: [Row; 34] = [
    // A text without a byte is refused before its lines are looked at.
    Row { text: b"", answer: Err((1, 0)) },
    // Only names, in any order.
    Row { text: b"op,d,a,b,n\n", answer: Ok(0) },
    Row { text: b"n,b,a,d,op\n", answer: Ok(0) },
    Row { text: b"a,n,op,b,d\n", answer: Ok(0) },
    Row { text: b"d,op,b,n,a\n", answer: Ok(0) },
    // No end; that is told before wrong names.
    Row { text: b"o", answer: Err((2, 1)) },
    Row { text: b"op,d,a,b,n", answer: Err((2, 1)) },
    Row { text: b"op,d,x", answer: Err((2, 1)) },
    Row { text: b"op,d,a,b,n,n", answer: Err((2, 1)) },
    Row { text: b"op,d,a,b,n\r", answer: Err((2, 1)) },
    // Too few or too many names.
    Row { text: b"\n", answer: Err((3, 1)) },
    Row { text: b"op\n", answer: Err((3, 1)) },
    Row { text: b"op,d,a,b\n", answer: Err((3, 1)) },
    Row { text: b"op,d,a,b,n,\n", answer: Err((3, 1)) },
    Row { text: b"op,d,a,b,n,n\n", answer: Err((3, 1)) },
    Row { text: b"op,d,a,b,n,x\n", answer: Err((3, 1)) },
    Row { text: b",,,,\n", answer: Err((3, 1)) },
    // A name twice, or another in its place.
    Row { text: b"op,d,a,b,b\n", answer: Err((3, 1)) },
    Row { text: b"op,d,d,b,n\n", answer: Err((3, 1)) },
    Row { text: b"op,op,a,b,n\n", answer: Err((3, 1)) },
    Row { text: b"op,d,a,b,\n", answer: Err((3, 1)) },
    Row { text: b",d,a,b,n\n", answer: Err((3, 1)) },
    Row { text: b"op,d,a,b,1\n", answer: Err((3, 1)) },
    Row { text: b"op,d,a,b,nn\n", answer: Err((3, 1)) },
    // Spaces, capitals, a carriage return and a byte above 127 are content.
    Row { text: b"op, d,a,b,n\n", answer: Err((3, 1)) },
    Row { text: b"op,d,a,b,n \n", answer: Err((3, 1)) },
    Row { text: b"op,d,a,b,n\r\n", answer: Err((3, 1)) },
    Row { text: b"OP,d,a,b,n\n", answer: Err((3, 1)) },
    Row { text: b"op,D,a,b,n\n", answer: Err((3, 1)) },
    Row { text: b"\xef\xbb\xbfop,d,a,b,n\n", answer: Err((3, 1)) },
    Row { text: b"op;d;a;b;n\n", answer: Err((3, 1)) },
    // The names stand in line 1 and nowhere else, and a wrong line 1 is told before a wrong line 2.
    Row { text: b"\nop,d,a,b,n\n", answer: Err((3, 1)) },
    Row { text: b"op,d,a,b\nhalt", answer: Err((3, 1)) },
    Row { text: b"op,d,a,b,n\nop,d,a,b,n\n", answer: Err((5, 2)) },
];

#[test]
fn headers(rt: HostRuntime) -> Result<(), Fail> {
    all_read(&rt, &HEADERS)
}
