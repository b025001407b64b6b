//! Words that are no command, and files that are not there.

use super::cases::{CALM, Case, check};
use super::texts::COUNTER;
use std::test::Fail;
use tapc_core::{Status, usage_line};

const USAGE: &[u8] = b"usage: tapc check | print | compile | world | node | replay | make | soak\n";

const READ_FAULT: &[u8] = b"read fault\n";

/// Words: the name of the row, the words, the status, and the line.
type Row = (&'static str, &'static [&'static str], Status, &'static [u8]);

/// All of them.
fn rows() -> [Row; 19] {
    [
        ("no words", &[], Status::Usage, USAGE),
        ("check alone", &["check"], Status::Usage, USAGE),
        ("check nothing", &["check", ""], Status::Usage, USAGE),
        (
            "check two files",
            &["check", "s", "t"],
            Status::Usage,
            USAGE,
        ),
        ("check in upper case", &["Check", "s"], Status::Usage, USAGE),
        ("print alone", &["print"], Status::Usage, USAGE),
        ("print nothing", &["print", ""], Status::Usage, USAGE),
        (
            "print two files",
            &["print", "s", "t"],
            Status::Usage,
            USAGE,
        ),
        ("print in upper case", &["Print", "s"], Status::Usage, USAGE),
        (
            "world without a schedule",
            &["world", "s"],
            Status::Usage,
            USAGE,
        ),
        (
            "world on three files",
            &["world", "s", "t", "u"],
            Status::Usage,
            USAGE,
        ),
        (
            "world in upper case",
            &["World", "s", "t"],
            Status::Usage,
            USAGE,
        ),
        (
            "world in two words",
            &["worl", "d", "s"],
            Status::Usage,
            USAGE,
        ),
        (
            "world of nothing",
            &["world", "", "t"],
            Status::Usage,
            USAGE,
        ),
        (
            "world on nothing",
            &["world", "s", ""],
            Status::Usage,
            USAGE,
        ),
        ("no word in front", &["", "s", "t"], Status::Usage, USAGE),
        ("a flag", &["--help"], Status::Usage, USAGE),
        (
            "a text that is not there",
            &["check", "u"],
            Status::ReadFault,
            READ_FAULT,
        ),
        (
            "a schedule that is not there",
            &["world", "s", "u"],
            Status::ReadFault,
            READ_FAULT,
        ),
    ]
}

#[test]
fn other_words_are_no_command(rt: HostRuntime) -> Result<(), Fail> {
    assert_eq!(rt; usage_line(), USAGE);
    for (name, words, status, lines) in rows() {
        let case = Case {
            name,
            words,
            system: COUNTER,
            status,
            lines,
            ..CALM
        };
        check(&rt, rt.alloc(), &case)?;
    }
    Ok(())
}
