// Vetting: refusals 9 and 8, then of each record in turn 11 and 10.
use crate::answers::{Answer, UNREAD, told};
use operations::operation::Operation;
use operations::step::Step;
use operations::vetting::vet;
use std::process::Abort;
use std::test::Fail;

#[derive(Clone, Copy)]
struct Case {
    records: &'static [Operation],
    answer: Answer,
}

// The lines are no row of 2, 3 and so on, so that a fault's line is seen to be the record's and not its place.
const STOP: Operation = Operation {
    code: 0,
    d: 0,
    a: 0,
    b: 0,
    n: 0,
    line: 70,
};

const SET: Operation = Operation {
    code: 1,
    d: 15,
    n: -1,
    line: 71,
    ..STOP
};

const ADD: Operation = Operation {
    code: 3,
    d: 15,
    a: 15,
    b: 15,
    line: 72,
    ..STOP
};

const JUMP: Operation = Operation {
    code: 13,
    line: 73,
    ..STOP
};

const JZERO: Operation = Operation {
    code: 14,
    a: 1,
    line: 74,
    ..STOP
};

const CALL: Operation = Operation {
    code: 15,
    line: 75,
    ..STOP
};

#[rattlefmt::skip]
const CASES: [Case; 33] = [
    Case { records: &[], answer: Err((9, 0)) },
    Case { records: &[STOP], answer: Ok(1) },
    // Only the target of a jump or call has to lie in the program.
    Case { records: &[SET, ADD, STOP], answer: Ok(3) },
    Case { records: &[STOP, JUMP, JZERO, CALL], answer: Ok(4) },
    Case { records: &[STOP, Operation { n: 1, ..JUMP }], answer: Ok(2) },
    Case { records: &[STOP, Operation { n: 1, ..JZERO }], answer: Ok(2) },
    Case { records: &[STOP, Operation { n: 1, ..CALL }], answer: Ok(2) },
    Case { records: &[STOP, Operation { n: 2, ..JUMP }], answer: Err((10, 73)) },
    Case { records: &[STOP, Operation { n: 2, ..JZERO }], answer: Err((10, 74)) },
    Case { records: &[STOP, Operation { n: 2, ..CALL }], answer: Err((10, 75)) },
    Case { records: &[Operation { n: -1, ..JUMP }], answer: Err((10, 73)) },
    Case { records: &[Operation { n: -1, ..JZERO }], answer: Err((10, 74)) },
    Case { records: &[Operation { n: -1, ..CALL }], answer: Err((10, 75)) },
    Case { records: &[Operation { n: 9223372036854775807, ..JUMP }], answer: Err((10, 73)) },
    Case { records: &[Operation { n: -9223372036854775808, ..JUMP }], answer: Err((10, 73)) },
    // 2 to the 32nd would be 0 if only the lower half counted.
    Case { records: &[Operation { n: 4294967296, ..JUMP }], answer: Err((10, 73)) },
    // Unknown codes, registers above 15, and unused fields that are not 0.
    Case { records: &[Operation { code: 22, ..STOP }], answer: Err((11, 70)) },
    Case { records: &[Operation { code: 255, ..STOP }], answer: Err((11, 70)) },
    Case { records: &[Operation { d: 16, ..ADD }], answer: Err((11, 72)) },
    Case { records: &[Operation { a: 16, ..ADD }], answer: Err((11, 72)) },
    Case { records: &[Operation { b: 16, ..ADD }], answer: Err((11, 72)) },
    Case { records: &[Operation { d: 255, ..ADD }], answer: Err((11, 72)) },
    Case { records: &[Operation { d: 1, ..STOP }], answer: Err((11, 70)) },
    Case { records: &[Operation { a: 1, ..STOP }], answer: Err((11, 70)) },
    Case { records: &[Operation { b: 1, ..STOP }], answer: Err((11, 70)) },
    Case { records: &[Operation { n: 1, ..STOP }], answer: Err((11, 70)) },
    Case { records: &[Operation { n: -1, ..ADD }], answer: Err((11, 72)) },
    Case { records: &[UNREAD], answer: Err((11, 5)) },
    // 11 comes before 10 in one record, and any fault of an earlier record before those of a later one.
    Case { records: &[Operation { d: 1, n: 9, ..JUMP }], answer: Err((11, 73)) },
    Case { records: &[Operation { a: 16, n: -1, ..JZERO }], answer: Err((11, 74)) },
    Case { records: &[STOP, Operation { n: 9, ..CALL }, Operation { code: 22, ..STOP }], answer: Err((10, 75)) },
    Case { records: &[STOP, Operation { code: 22, ..STOP }, Operation { n: 9, ..CALL }], answer: Err((11, 70)) },
    Case { records: &[Operation { line: 0, code: 22, ..STOP }], answer: Err((11, 0)) },
];

// A program has the steps of its records and none after them.
fn answer_of(rt: &impl Abort, records: &[Operation]) -> Result<Answer, Fail> {
    match vet(records) {
        Ok(program) => {
            assert_eq!(rt; program.len(), records.len());
            assert_eq!(rt; program.steps().len(), records.len());
            for (i, (step, record)) in program.steps().iter().zip(records).enumerate() {
                assert_eq!(rt; Ok(*step), Step::try_from(record), "step {i}");
                assert_eq!(rt; program.get(i), Some(*step), "step {i}");
            }
            assert_eq!(rt; program.get(records.len()), None);
            Ok(Ok(records.len()))
        }
        Err(fault) => Ok(Err(told(fault))),
    }
}

fn check_all(rt: &impl Abort, cases: &[Case]) -> Result<(), Fail> {
    for (i, case) in cases.iter().enumerate() {
        assert_eq!(rt; answer_of(rt, case.records)?, case.answer, "case {i}");
    }
    Ok(())
}

#[test]
fn cases(rt: HostRuntime) -> Result<(), Fail> {
    check_all(&rt, &CASES)
}

#[test]
fn counts(rt: HostRuntime) -> Result<(), Fail> {
    assert_eq!(rt; answer_of(&rt, &[STOP; 512])?, Ok(512));
    // The number of records is told before any record is looked at.
    assert_eq!(rt; answer_of(&rt, &[UNREAD; 512])?, Err((11, 5)));
    assert_eq!(rt; answer_of(&rt, &[STOP; 513])?, Err((8, 0)));
    assert_eq!(rt; answer_of(&rt, &[UNREAD; 513])?, Err((8, 0)));
    Ok(())
}
