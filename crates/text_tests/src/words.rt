// The 22 operations as lines of a text: each word with 1, 2, 3 and 4 in the columns that it uses.
use crate::rows::answer_of;
use operations::operation::Operation;
use operations_tests::answers::UNREAD;
use std::process::Abort;
use std::test::Fail;

// A text of one operation, and the record that it gives; the place in the table is the number.
#[derive(Clone, Copy)]
struct Known {
    text: &'static [u8],
    d: u8,
    a: u8,
    b: u8,
    n: i64,
}

#[rattlefmt::skip]
const TABLE: [Known; 22] = [
    Known { text: b"op,d,a,b,n\nstop,,,,\n", d: 0, a: 0, b: 0, n: 0 },
    Known { text: b"op,d,a,b,n\nset,1,,,4\n", d: 1, a: 0, b: 0, n: 4 },
    Known { text: b"op,d,a,b,n\ncopy,1,2,,\n", d: 1, a: 2, b: 0, n: 0 },
    Known { text: b"op,d,a,b,n\nadd,1,2,3,\n", d: 1, a: 2, b: 3, n: 0 },
    Known { text: b"op,d,a,b,n\nsub,1,2,3,\n", d: 1, a: 2, b: 3, n: 0 },
    Known { text: b"op,d,a,b,n\naddi,1,2,,4\n", d: 1, a: 2, b: 0, n: 4 },
    Known { text: b"op,d,a,b,n\nmul,1,2,3,\n", d: 1, a: 2, b: 3, n: 0 },
    Known { text: b"op,d,a,b,n\ndiv,1,2,3,\n", d: 1, a: 2, b: 3, n: 0 },
    Known { text: b"op,d,a,b,n\nless,1,2,3,\n", d: 1, a: 2, b: 3, n: 0 },
    Known { text: b"op,d,a,b,n\nload,1,2,,4\n", d: 1, a: 2, b: 0, n: 4 },
    Known { text: b"op,d,a,b,n\nstore,,2,3,4\n", d: 0, a: 2, b: 3, n: 4 },
    Known { text: b"op,d,a,b,n\nloadb,1,2,,4\n", d: 1, a: 2, b: 0, n: 4 },
    Known { text: b"op,d,a,b,n\nstoreb,,2,3,4\n", d: 0, a: 2, b: 3, n: 4 },
    Known { text: b"op,d,a,b,n\njump,,,,4\n", d: 0, a: 0, b: 0, n: 4 },
    Known { text: b"op,d,a,b,n\njzero,,2,,4\n", d: 0, a: 2, b: 0, n: 4 },
    Known { text: b"op,d,a,b,n\ncall,,,,4\n", d: 0, a: 0, b: 0, n: 4 },
    Known { text: b"op,d,a,b,n\nret,,,,\n", d: 0, a: 0, b: 0, n: 0 },
    Known { text: b"op,d,a,b,n\nframe,1,,,4\n", d: 1, a: 0, b: 0, n: 4 },
    Known { text: b"op,d,a,b,n\nglobal,1,,,4\n", d: 1, a: 0, b: 0, n: 4 },
    Known { text: b"op,d,a,b,n\ngrab,1,2,,\n", d: 1, a: 2, b: 0, n: 0 },
    Known { text: b"op,d,a,b,n\nrelease,,2,,\n", d: 0, a: 2, b: 0, n: 0 },
    Known { text: b"op,d,a,b,n\nout,,2,,\n", d: 0, a: 2, b: 0, n: 0 },
];

fn check_known(rt: &impl Abort, known: &Known, number: u8) -> Result<(), Fail> {
    let Known { text, d, a, b, n } = *known;
    let mut list = [UNREAD; 1];
    assert_eq!(rt; answer_of(text, &mut list), Ok(1), "operation {number}");
    assert_eq!(rt;
        list[0],
        Operation {
            code: number,
            d,
            a,
            b,
            n,
            line: 2
        },
        "operation {number}"
    );
    Ok(())
}

#[test]
fn words(rt: HostRuntime) -> Result<(), Fail> {
    for (known, number) in TABLE.iter().zip(0..22u8) {
        check_known(&rt, known, number)?;
    }
    Ok(())
}
