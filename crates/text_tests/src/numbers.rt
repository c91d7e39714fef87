// Numbers: refusal 6.
use crate::rows::{Row, all_read};
use std::test::Fail;

#[rattlefmt::skip]
const REGISTERS: [Row; 22] = [
    Row { text: b"op,d,a,b,n\nadd,0,9,10,\n", answer: Ok(1) },
    Row { text: b"op,d,a,b,n\nadd,15,15,15,\n", answer: Ok(1) },
    // Outside the range, in each of the three columns.
    Row { text: b"op,d,a,b,n\nadd,16,1,1,\n", answer: Err((6, 2)) },
    Row { text: b"op,d,a,b,n\nadd,1,16,1,\n", answer: Err((6, 2)) },
    Row { text: b"op,d,a,b,n\nadd,1,1,16,\n", answer: Err((6, 2)) },
    Row { text: b"op,d,a,b,n\nadd,-1,1,1,\n", answer: Err((6, 2)) },
    Row { text: b"op,d,a,b,n\nadd,1,-1,1,\n", answer: Err((6, 2)) },
    Row { text: b"op,d,a,b,n\nadd,1,1,-1,\n", answer: Err((6, 2)) },
    // These would be registers if only their lowest bits counted.
    Row { text: b"op,d,a,b,n\nout,,257,,\n", answer: Err((6, 2)) },
    Row { text: b"op,d,a,b,n\nout,,4294967297,,\n", answer: Err((6, 2)) },
    Row { text: b"op,d,a,b,n\nout,,18446744073709551617,,\n", answer: Err((6, 2)) },
    // Not plain.
    Row { text: b"op,d,a,b,n\nout,,-0,,\n", answer: Err((6, 2)) },
    Row { text: b"op,d,a,b,n\nout,,00,,\n", answer: Err((6, 2)) },
    Row { text: b"op,d,a,b,n\nout,,01,,\n", answer: Err((6, 2)) },
    Row { text: b"op,d,a,b,n\nout,,+1,,\n", answer: Err((6, 2)) },
    Row { text: b"op,d,a,b,n\nout,,-,,\n", answer: Err((6, 2)) },
    Row { text: b"op,d,a,b,n\nout,, 1,,\n", answer: Err((6, 2)) },
    Row { text: b"op,d,a,b,n\nout,,1 ,,\n", answer: Err((6, 2)) },
    Row { text: b"op,d,a,b,n\nout,,1\r,,\n", answer: Err((6, 2)) },
    Row { text: b"op,d,a,b,n\nout,,r1,,\n", answer: Err((6, 2)) },
    Row { text: b"op,d,a,b,n\nout,,\xb1,,\n", answer: Err((6, 2)) },
    Row { text: b"op,d,a,b,n\nout,,add,,\n", answer: Err((6, 2)) },
];

#[rattlefmt::skip]
const OFFSETS: [Row; 28] = [
    Row { text: b"op,d,a,b,n\nset,1,,,0\n", answer: Ok(1) },
    Row { text: b"op,d,a,b,n\nset,1,,,16\n", answer: Ok(1) },
    Row { text: b"op,d,a,b,n\nset,1,,,-1\n", answer: Ok(1) },
    Row { text: b"op,d,a,b,n\nset,1,,,-10\n", answer: Ok(1) },
    // The ends of 64 bits.
    Row { text: b"op,d,a,b,n\nset,1,,,9223372036854775807\n", answer: Ok(1) },
    Row { text: b"op,d,a,b,n\nset,1,,,9223372036854775808\n", answer: Err((6, 2)) },
    Row { text: b"op,d,a,b,n\nset,1,,,9223372036854775810\n", answer: Err((6, 2)) },
    Row { text: b"op,d,a,b,n\nset,1,,,10000000000000000000\n", answer: Err((6, 2)) },
    Row { text: b"op,d,a,b,n\nset,1,,,18446744073709551617\n", answer: Err((6, 2)) },
    Row { text: b"op,d,a,b,n\nset,1,,,92233720368547758070\n", answer: Err((6, 2)) },
    Row { text: b"op,d,a,b,n\nset,1,,,-9223372036854775808\n", answer: Ok(1) },
    Row { text: b"op,d,a,b,n\nset,1,,,-9223372036854775809\n", answer: Err((6, 2)) },
    Row { text: b"op,d,a,b,n\nset,1,,,-18446744073709551617\n", answer: Err((6, 2)) },
    // Not plain.
    Row { text: b"op,d,a,b,n\nset,1,,,-0\n", answer: Err((6, 2)) },
    Row { text: b"op,d,a,b,n\nset,1,,,00\n", answer: Err((6, 2)) },
    Row { text: b"op,d,a,b,n\nset,1,,,01\n", answer: Err((6, 2)) },
    Row { text: b"op,d,a,b,n\nset,1,,,-01\n", answer: Err((6, 2)) },
    Row { text: b"op,d,a,b,n\nset,1,,,+1\n", answer: Err((6, 2)) },
    Row { text: b"op,d,a,b,n\nset,1,,,-\n", answer: Err((6, 2)) },
    Row { text: b"op,d,a,b,n\nset,1,,,--1\n", answer: Err((6, 2)) },
    Row { text: b"op,d,a,b,n\nset,1,,,1-\n", answer: Err((6, 2)) },
    Row { text: b"op,d,a,b,n\nset,1,,, 1\n", answer: Err((6, 2)) },
    Row { text: b"op,d,a,b,n\nset,1,,,1 \n", answer: Err((6, 2)) },
    Row { text: b"op,d,a,b,n\nset,1,,,1\r\n", answer: Err((6, 2)) },
    Row { text: b"op,d,a,b,n\nset,1,,,0x1\n", answer: Err((6, 2)) },
    Row { text: b"op,d,a,b,n\nset,1,,,1.0\n", answer: Err((6, 2)) },
    // The bytes on either side of the digits.
    Row { text: b"op,d,a,b,n\nset,1,,,1/\n", answer: Err((6, 2)) },
    Row { text: b"op,d,a,b,n\nset,1,,,1:\n", answer: Err((6, 2)) },
];

#[test]
fn registers(rt: HostRuntime) -> Result<(), Fail> {
    all_read(&rt, &REGISTERS)
}

#[test]
fn offsets(rt: HostRuntime) -> Result<(), Fail> {
    all_read(&rt, &OFFSETS)
}
