// The columns d, a, b and n in turn: refusal 7, then 6, of each before the next is looked at.
use crate::rows::{Row, all_read};
use std::test::Fail;

#[rattlefmt::skip]
const BLANKS: [Row; 20] = [
    // A used column is blank.
    Row { text: b"op,d,a,b,n\nset,,,,5\n", answer: Err((7, 2)) },
    Row { text: b"op,d,a,b,n\nset,1,,,\n", answer: Err((7, 2)) },
    Row { text: b"op,d,a,b,n\nadd,1,,1,\n", answer: Err((7, 2)) },
    Row { text: b"op,d,a,b,n\nadd,1,1,,\n", answer: Err((7, 2)) },
    Row { text: b"op,d,a,b,n\nadd,1,1,1,\n", answer: Ok(1) },
    // An unused one is filled, be it by 0 or by no number at all.
    Row { text: b"op,d,a,b,n\nstop,1,,,\n", answer: Err((7, 2)) },
    Row { text: b"op,d,a,b,n\nstop,,1,,\n", answer: Err((7, 2)) },
    Row { text: b"op,d,a,b,n\nstop,,,1,\n", answer: Err((7, 2)) },
    Row { text: b"op,d,a,b,n\nstop,,,,1\n", answer: Err((7, 2)) },
    Row { text: b"op,d,a,b,n\nstop,,,,0\n", answer: Err((7, 2)) },
    Row { text: b"op,d,a,b,n\nstop,0,,,\n", answer: Err((7, 2)) },
    Row { text: b"op,d,a,b,n\nset,1,x,,5\n", answer: Err((7, 2)) },
    Row { text: b"op,d,a,b,n\nset,1,,16,5\n", answer: Err((7, 2)) },
    // What looks like nothing and is content.
    Row { text: b"op,d,a,b,n\nstop,,,,\r\n", answer: Err((7, 2)) },
    Row { text: b"op,d,a,b,n\nstop,,,, \n", answer: Err((7, 2)) },
    Row { text: b"op,d,a,b,n\nstop,, ,,\n", answer: Err((7, 2)) },
    Row { text: b"op,d,a,b,n\nstop,\t,,,\n", answer: Err((7, 2)) },
    Row { text: b"op,d,a,b,n\nstop,,,\xa0,\n", answer: Err((7, 2)) },
    Row { text: b"op,d,a,b,n\nstop,,,\0,\n", answer: Err((7, 2)) },
    Row { text: b"op,d,a,b,n\nset,1,,,\r\n", answer: Err((6, 2)) },
];

#[rattlefmt::skip]
const TURNS: [Row; 19] = [
    // Two faults of one line: the earlier column is told.
    Row { text: b"op,d,a,b,n\nadd,,x,1,\n", answer: Err((7, 2)) },
    Row { text: b"op,d,a,b,n\nadd,x,,1,\n", answer: Err((6, 2)) },
    Row { text: b"op,d,a,b,n\nadd,1,,x,\n", answer: Err((7, 2)) },
    Row { text: b"op,d,a,b,n\nadd,1,x,,\n", answer: Err((6, 2)) },
    Row { text: b"op,d,a,b,n\nadd,1,1,x,1\n", answer: Err((6, 2)) },
    Row { text: b"op,d,a,b,n\nadd,1,1,,x\n", answer: Err((7, 2)) },
    Row { text: b"op,d,a,b,n\nset,16,1,,5\n", answer: Err((6, 2)) },
    Row { text: b"op,d,a,b,n\nset,1,1,,x\n", answer: Err((7, 2)) },
    Row { text: b"op,d,a,b,n\nstore,,16,1,\n", answer: Err((6, 2)) },
    Row { text: b"op,d,a,b,n\nstore,,,16,x\n", answer: Err((7, 2)) },
    // The turn goes by the names, wherever they stand: each of these would answer otherwise from left to right.
    Row { text: b"n,b,a,d,op\n,x,1,,add\n", answer: Err((7, 2)) },
    Row { text: b"n,b,a,d,op\nx,,1,1,set\n", answer: Err((7, 2)) },
    Row { text: b"n,b,a,d,op\n,,x,1,add\n", answer: Err((6, 2)) },
    Row { text: b"b,n,op,a,d\n,5,add,1,x\n", answer: Err((6, 2)) },
    Row { text: b"a,op,d,n,b\nx,add,,,1\n", answer: Err((7, 2)) },
    // The same lines without a fault.
    Row { text: b"n,b,a,d,op\n,1,1,1,add\n", answer: Ok(1) },
    Row { text: b"n,b,a,d,op\n5,,,1,set\n", answer: Ok(1) },
    Row { text: b"b,n,op,a,d\n1,,add,1,1\n,,stop,,\n", answer: Ok(2) },
    Row { text: b"a,op,d,n,b\n1,store,,-8,15\n", answer: Ok(1) },
];

#[test]
fn blanks(rt: HostRuntime) -> Result<(), Fail> {
    all_read(&rt, &BLANKS)
}

#[test]
fn turns(rt: HostRuntime) -> Result<(), Fail> {
    all_read(&rt, &TURNS)
}
