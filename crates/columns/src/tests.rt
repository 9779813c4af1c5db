//! Awkward files, each with what its lines answer when they are read as fields of 9 and 4 columns: two numbers, or the
//! number of the refusal, the line and the column of the field.

use crate::faults::{FieldFault, LineFault, Numbered};
use crate::lines::Reader;
use std::process::Abort;
use std::test::Fail;

// The table says a refusal as it is told: by number, line and column.
type Answer = Result<[u32; 2], (u32, usize, usize)>;

fn told(fault: LineFault) -> (u32, usize, usize) {
    match fault {
        LineFault::Length { line } => (fault.number(), line, 0),
        LineFault::Field(FieldFault::NoNumber { line, column }) => (fault.number(), line, column),
    }
}

fn check_file(rt: &impl Abort, file: &[u8], answers: &[Answer]) -> Result<(), Fail> {
    let mut reader = Reader::new(file);
    for expected in answers {
        let line = reader.next_line().ok_or("a line is missing")?;
        assert_eq!(rt; line.fields([9, 4]).map_err(told), *expected);
    }
    assert!(rt; reader.next_line().is_none());
    assert_eq!(rt; Reader::new(file).count(), answers.len());
    Ok(())
}

#[test]
fn awkward_files(rt: HostRuntime) -> Result<(), Fail> {
    let table: [(&[u8], &[Answer]); 22] = [
        (b"", &[]),
        (b"\n", &[Err((18, 1, 0))]),
        (b"        4   3", &[Ok([4, 3])]),
        (b"        4   3\n", &[Ok([4, 3])]),
        (b"        4   3\n\n", &[Ok([4, 3]), Err((18, 2, 0))]),
        (
            b"\n        4   3\n        5   6",
            &[Err((18, 1, 0)), Ok([4, 3]), Ok([5, 6])],
        ),
        (b"        4   3\r\n", &[Err((18, 1, 0))]),
        (b"        4  3\r\n", &[Err((19, 1, 10))]),
        (b"        \0   3", &[Err((19, 1, 1))]),
        (b"        4\0\0\x003", &[Err((19, 1, 10))]),
        (b"            3", &[Err((19, 1, 1))]),
        (b"        4    ", &[Err((19, 1, 10))]),
        (b"      007   3", &[Err((19, 1, 1))]),
        (b"        0   0", &[Ok([0, 0])]),
        (b"        1  1 ", &[Err((19, 1, 10))]),
        (b"       +1   3", &[Err((19, 1, 1))]),
        (b"        4  -1", &[Err((19, 1, 10))]),
        (b"\t       4   3", &[Err((19, 1, 1))]),
        (b"9999999999999", &[Ok([999999999, 9999])]),
        (b"        4  3", &[Err((18, 1, 0))]),
        (b"        4    3", &[Err((18, 1, 0))]),
        (b"        x   y", &[Err((19, 1, 1))]),
    ];
    for (file, answers) in table {
        check_file(&rt, file, answers)?;
    }
    Ok(())
}
