// The 22 operations: their words, numbers, used columns and extra, and records of them.
use operations::code::{Code, Row};
use operations::operation::Operation;
use operations::step::Step;
use operations::unknown::{UnfitRecord, UnknownCode, UnknownWord};
use operations::uses::Uses;
use std::process::Abort;
use std::test::Fail;

const NONE: Uses = Uses {
    d: false,
    a: false,
    b: false,
    n: false,
};

const A: Uses = Uses { a: true, ..NONE };

const N: Uses = Uses { n: true, ..NONE };

const AN: Uses = Uses { n: true, ..A };

const DA: Uses = Uses { d: true, ..A };

const DN: Uses = Uses { d: true, ..N };

const ABN: Uses = Uses { b: true, ..AN };

const DAB: Uses = Uses { b: true, ..DA };

const DAN: Uses = Uses { n: true, ..DA };

// Its place in the table is the number of an operation.
#[rattlefmt::skip]
const TABLE: [Row; 22] = [
    Row { word: "stop", uses: NONE, extra: 0 },
    Row { word: "set", uses: DN, extra: 0 },
    Row { word: "copy", uses: DA, extra: 0 },
    Row { word: "add", uses: DAB, extra: 1 },
    Row { word: "sub", uses: DAB, extra: 0 },
    Row { word: "addi", uses: DAN, extra: 0 },
    Row { word: "mul", uses: DAB, extra: 0 },
    Row { word: "div", uses: DAB, extra: 0 },
    Row { word: "less", uses: DAB, extra: 0 },
    Row { word: "load", uses: DAN, extra: 2 },
    Row { word: "store", uses: ABN, extra: 2 },
    Row { word: "loadb", uses: DAN, extra: 1 },
    Row { word: "storeb", uses: ABN, extra: 1 },
    Row { word: "jump", uses: N, extra: 0 },
    Row { word: "jzero", uses: AN, extra: 0 },
    Row { word: "call", uses: N, extra: 4 },
    Row { word: "ret", uses: NONE, extra: 4 },
    Row { word: "frame", uses: DN, extra: 0 },
    Row { word: "global", uses: DN, extra: 0 },
    Row { word: "grab", uses: DA, extra: 1 },
    Row { word: "release", uses: A, extra: 1 },
    Row { word: "out", uses: A, extra: 0 },
];

// Words that no operation has, most of them near one that has.
#[rattlefmt::skip]
const STRANGE: [&[u8]; 18] = [
    b"", b"s", b"st", b"sto", b"Stop", b"STOP", b"stopp", b" stop", b"stop ", b"stop\r", b"stor", b"storeB", b"storebb", b"adds", b"jzer", b"ou", b"halt",
    b"\xf3stop",
];

fn check_word(rt: &impl Abort, row: &Row, number: u8) -> Result<(), Fail> {
    let code = Code::try_from(number).map_err(|_| "no such code")?;
    assert_eq!(rt; u8::from(code), number, "operation {number}");
    assert_eq!(rt; code.row(), *row, "operation {number}");
    assert_eq!(rt;
        Code::try_from(row.word.as_bytes()),
        Ok(code),
        "operation {number}"
    );
    Ok(())
}

#[test]
fn words(rt: HostRuntime) -> Result<(), Fail> {
    for (number, row) in (0..22u8).zip(&TABLE) {
        check_word(&rt, row, number)?;
    }
    assert_eq!(rt; Code::try_from(22), Err(UnknownCode));
    assert_eq!(rt; Code::try_from(255), Err(UnknownCode));
    for (i, word) in STRANGE.iter().enumerate() {
        assert_eq!(rt; Code::try_from(*word), Err(UnknownWord), "strange word {i}");
    }
    Ok(())
}

fn decodes(operation: Operation) -> bool {
    Step::try_from(&operation).is_ok()
}

// The record with another value in each of d, a, b and n in turn.
fn with_each(record: Operation, value: u8) -> [Operation; 4] {
    [
        Operation { d: value, ..record },
        Operation { a: value, ..record },
        Operation { b: value, ..record },
        Operation {
            n: i64::from(value),
            ..record
        },
    ]
}

// A used register takes 0 to 15, n takes any number, and an unused field takes only 0.
fn check_fields(rt: &impl Abort, uses: Uses, number: u8) -> Result<(), Fail> {
    let full = Operation {
        code: number,
        line: 2,
        ..Operation::default()
    };
    let Uses { d, a, b, n } = uses;
    assert!(rt; decodes(full), "operation {number}");
    assert_eq!(rt;
        with_each(full, 15).map(decodes),
        [d, a, b, n],
        "operation {number}"
    );
    assert_eq!(rt;
        with_each(full, 16).map(decodes),
        [false, false, false, n],
        "operation {number}"
    );
    assert!(rt;
        !decodes(Operation { code: 22, ..full }),
        "operation {number}"
    );
    Ok(())
}

#[test]
fn fields(rt: HostRuntime) -> Result<(), Fail> {
    for (number, row) in (0..22u8).zip(&TABLE) {
        check_fields(&rt, row.uses, number)?;
    }
    Ok(())
}

#[test]
fn refusals(rt: HostRuntime) -> Result<(), Fail> {
    let unfit = Operation {
        code: 22,
        ..Operation::default()
    };
    assert_eq!(rt; Step::try_from(&unfit), Err(UnfitRecord));
    assert_eq!(rt;
        UnknownCode.to_string(rt.alloc())?.as_str(),
        "no operation has this number"
    );
    assert_eq!(rt;
        UnknownWord.to_string(rt.alloc())?.as_str(),
        "no operation has this word"
    );
    assert_eq!(rt;
        UnfitRecord.to_string(rt.alloc())?.as_str(),
        "the record is of no operation"
    );
    Ok(())
}
