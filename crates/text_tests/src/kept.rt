// The records themselves: what is read, and what a refusal leaves in the list.
use crate::rows::{Row, answer_of, written};
use operations::operation::Operation;
use operations_tests::answers::UNREAD;
use std::process::Abort;
use std::test::Fail;

// The lines 2 to 4 of every text below, where they are not refused.
#[rattlefmt::skip]
const RECORDS: [Operation; 3] = [
    Operation { code: 1, d: 1, a: 0, b: 0, n: -9223372036854775808, line: 2 },
    Operation { code: 3, d: 2, a: 15, b: 7, n: 0, line: 3 },
    Operation { code: 12, d: 0, a: 10, b: 9, n: 9223372036854775807, line: 4 },
];

#[rattlefmt::skip]
const TEXTS: [Row; 12] = [
    // The same three operations under three orders of the columns.
    Row { text: b"op,d,a,b,n\nset,1,,,-9223372036854775808\nadd,2,15,7,\nstoreb,,10,9,9223372036854775807\n", answer: Ok(3) },
    Row { text: b"n,b,a,d,op\n-9223372036854775808,,,1,set\n,7,15,2,add\n9223372036854775807,9,10,,storeb\n", answer: Ok(3) },
    Row { text: b"a,n,op,b,d\n,-9223372036854775808,set,,1\n15,,add,7,2\n10,9223372036854775807,storeb,9,\n", answer: Ok(3) },
    // A refusal leaves the earlier lines written, and nothing of its own line or of a later one.
    Row { text: b"op,d,a,b,n\nset,1,,,-9223372036854775808\nadd,2,15,7,\nstoreb,,10,9,9223372036854775807", answer: Err((2, 4)) },
    Row { text: b"op,d,a,b,n\nset,1,,,-9223372036854775808\nadd,2,15,7,\n\nstop,,,,\n", answer: Err((4, 4)) },
    Row { text: b"op,d,a,b,n\nset,1,,,-9223372036854775808\nadd,2,15,7,\nhalt,,,,\nstop,,,,\n", answer: Err((5, 4)) },
    Row { text: b"op,d,a,b,n\nset,1,,,-9223372036854775808\nadd,2,15,7,\nstoreb,,10,9,-0\nstop,,,,\n", answer: Err((6, 4)) },
    Row { text: b"op,d,a,b,n\nset,1,,,-9223372036854775808\nadd,2,15,7,\nstoreb,,10,9,\nstop,,,,\n", answer: Err((7, 4)) },
    Row { text: b"op,d,a,b,n\nset,1,,,-9223372036854775808\nadd,2,15,\nstop,,,,\n", answer: Err((4, 3)) },
    Row { text: b"op,d,a,b,n\nset,1,,,-\nadd,2,15,7,\nstop,,,,\n", answer: Err((6, 2)) },
    // The refusals 1 and 3 leave the whole list.
    Row { text: b"", answer: Err((1, 0)) },
    Row { text: b"op,d,a,b\nset,1,,,5\n", answer: Err((3, 1)) },
];

// The records in front are those above, and the others were left alone. The note of a failure names the row.
fn check_records(
    rt: &impl Abort,
    list: &[Operation],
    count: usize,
    row: usize,
) -> Result<(), Fail> {
    for (i, record) in list.iter().enumerate() {
        let left = if i < count {
            RECORDS.get(i).copied()
        } else {
            Some(UNREAD)
        };
        assert_eq!(rt; Some(*record), left, "row {row}, record {i}");
    }
    Ok(())
}

#[test]
fn records(rt: HostRuntime) -> Result<(), Fail> {
    for (i, row) in TEXTS.iter().enumerate() {
        let mut list = [UNREAD; 5];
        let answer = answer_of(row.text, &mut list);
        assert_eq!(rt; answer, row.answer, "row {i}");
        check_records(&rt, &list, written(answer), i)?;
    }
    Ok(())
}
