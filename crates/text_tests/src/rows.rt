// Texts with their answers, and how each is read.
use operations::operation::Operation;
use operations_tests::answers::{Answer, UNREAD, told};
use std::process::Abort;
use std::test::Fail;
use text::reader::read;

#[derive(Clone, Copy)]
pub struct Row {
    pub text: &'static [u8],
    pub answer: Answer,
}

pub fn answer_of(text: &[u8], list: &mut [Operation]) -> Answer {
    read(text, list).map_err(told)
}

// How many records an answer leaves written: on a refusal those of the lines before, and none where it names line 0 or 1.
pub fn written(answer: Answer) -> usize {
    match answer {
        Ok(count) => count,
        // A cast, since no From makes a usize of a u32.
        Err((_, line)) => line.saturating_sub(2) as usize,
    }
}

// The records in front have the lines 2, 3 and so on, and the others were left alone. The note of a failure names the row.
fn only_written(rt: &impl Abort, list: &[Operation], count: usize, row: usize) -> Result<(), Fail> {
    for (i, (record, line)) in list.iter().zip(2u32..).enumerate() {
        if i < count {
            assert_eq!(rt; record.line, line, "row {row}, the line of a record");
        } else {
            assert_eq!(rt; *record, UNREAD, "row {row}, record {i}");
        }
    }
    Ok(())
}

// Reads a text into the list. The note of a failure names the row.
pub fn check_read(
    rt: &impl Abort,
    text: &[u8],
    list: &mut [Operation],
    answer: Answer,
    row: usize,
) -> Result<(), Fail> {
    assert_eq!(rt; answer_of(text, list), answer, "row {row}");
    only_written(rt, list, written(answer), row)
}

// Reads each text into a list of four records. The note of a failure counts the rows from 0.
pub fn all_read(rt: &impl Abort, rows: &[Row]) -> Result<(), Fail> {
    for (i, row) in rows.iter().enumerate() {
        let mut list = [UNREAD; 4];
        check_read(rt, row.text, &mut list, row.answer, i)?;
    }
    Ok(())
}
