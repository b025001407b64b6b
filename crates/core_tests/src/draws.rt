//! Runs with choices: what is drawn with a seed. The words of the generators were worked apart, by the definition of the
//! generator.

use super::cases::{CALM, Case, check};
use super::texts::{BELOW, DIGIT, ONE, PAIR, THREE, THROWS, WORD};
use std::test::Fail;
use tapc_core::Status;

/// A run to the end of its schedule: its name, the words, the system, the schedule, and the lines.
type Row = (
    &'static str,
    &'static [&'static str],
    &'static [u8],
    &'static [u8],
    &'static [u8],
);

/// All of them.
fn rows() -> [Row; 21] {
    [
        // The words are 3837872008 and 932996374.
        (
            "no seed",
            &["world", "s", "t"],
            DIGIT,
            b"turn a 0\nturn a 1\n",
            b"tick a 0\nact a 0 8\ntick a 1\nact a 0 2\nvar a x 2\nend\n",
        ),
        // The same.
        (
            "a seed of 0",
            &["world", "s", "t", "seed=0"],
            DIGIT,
            b"turn a 0\nturn a 1\n",
            b"tick a 0\nact a 0 8\ntick a 1\nact a 0 2\nvar a x 2\nend\n",
        ),
        // 3795398737 and 17903413.
        (
            "a seed of 1",
            &["world", "s", "t", "seed=1"],
            DIGIT,
            b"turn a 0\nturn a 1\n",
            b"tick a 0\nact a 0 8\ntick a 1\nact a 0 0\nvar a x 0\nend\n",
        ),
        // 0 and 3837872008.
        (
            "the greatest seed",
            &["world", "s", "t", "seed=18446744073709551615"],
            DIGIT,
            b"turn a 0\nturn a 1\n",
            b"tick a 0\nact a 0 0\ntick a 1\nact a 0 8\nvar a x 8\nend\n",
        ),
        // Of 2^32 options each word takes its own.
        (
            "a word itself",
            &["world", "s", "t", "seed=0"],
            WORD,
            b"turn a 0\n",
            b"tick a 0\nact a 0 3837872008\nvar a x 3837872008\nend\n",
        ),
        (
            "a word of the greatest seed",
            &["world", "s", "t", "seed=18446744073709551615"],
            WORD,
            b"turn a 0\n",
            b"tick a 0\nact a 0 0\nvar a x 0\nend\n",
        ),
        // 257813417 takes the first of ten.
        (
            "values below 0",
            &["world", "s", "t", "seed=2"],
            BELOW,
            b"turn a 0\n",
            b"tick a 0\nact a 0 -5\nvar a x -5\nend\n",
        ),
        // Each of three options is taken once: by 257813417, 2057372262 and 3837872008.
        (
            "the first of three",
            &["world", "s", "t", "seed=2"],
            THREE,
            b"turn a 0\n",
            b"tick a 0\nact a 0 0\nvar a x 0\nend\n",
        ),
        (
            "the second of three",
            &["world", "s", "t", "seed=4"],
            THREE,
            b"turn a 0\n",
            b"tick a 0\nact a 0 1\nvar a x 1\nend\n",
        ),
        (
            "the third of three",
            &["world", "s", "t", "seed=0"],
            THREE,
            b"turn a 0\n",
            b"tick a 0\nact a 0 2\nvar a x 2\nend\n",
        ),
        // A choice of one value uses a word, too.
        (
            "two choices of an action, the first of one value",
            &["world", "s", "t", "seed=0"],
            ONE,
            b"turn a 0\n",
            b"tick a 0\nact a 0 3 2\nvar a y 3\nvar a x 2\nend\n",
        ),
        // A branch goes by its number in the text.
        (
            "a selection with two open branches",
            &["world", "s", "t", "seed=0"],
            b"process a var x : 0..9 begin true -> if true -> x := 1 [] true -> x := 2 fi end",
            b"turn a 0\nturn a 1\n",
            b"tick a 0\nact a 0 1\ntick a 1\nact a 0 0\nvar a x 1\nend\n",
        ),
        (
            "a selection whose open branches are its second and third",
            &["world", "s", "t", "seed=0"],
            b"process a var x : 0..9 begin true -> if x = 9 -> x := 1 [] true -> x := 2 [] true -> x := 3 fi end",
            b"turn a 0\nturn a 1\n",
            b"tick a 0\nact a 0 2\ntick a 1\nact a 0 1\nvar a x 2\nend\n",
        ),
        // One open branch uses no word, and neither does none.
        (
            "a selection with one open branch",
            &["world", "s", "t", "seed=0"],
            b"process a var x : 0..9 begin true -> if x = 0 -> x := 1 [] x = 1 -> skip fi; choose x end",
            b"turn a 0\n",
            b"tick a 0\nact a 0 8\nvar a x 8\nend\n",
        ),
        (
            "a selection with no open branch",
            &["world", "s", "t", "seed=0"],
            b"process a var x : 0..9 begin true -> if x = 8 -> x := 1 [] x = 9 -> skip fi; choose x end",
            b"turn a 0\n",
            b"tick a 0\nact a 0 8\nvar a x 8\nend\n",
        ),
        (
            "a loop with one open branch at a time",
            &["world", "s", "t", "seed=0"],
            b"process a var x : 0..9 begin true -> do 3 times x = 0 -> x := 1 [] x = 1 -> x := 0 od end",
            b"turn a 0\n",
            b"tick a 0\nact a 0\nvar a x 1\nend\n",
        ),
        // Each turn of a loop takes a branch.
        (
            "a loop with two open branches",
            &["world", "s", "t", "seed=4"],
            b"process a var x : 0..9; y : 0..9 begin true -> do 3 times true -> x := min(x + 1, 9) [] true -> y := min(y + 1, 9) od end",
            b"turn a 0\n",
            b"tick a 0\nact a 0 0 1 1\nvar a x 1\nvar a y 2\nend\n",
        ),
        // Each process has words of its own, and the order of the turns does not change them.
        (
            "two processes",
            &["world", "s", "t", "seed=0"],
            PAIR,
            b"turn a 0\nturn b 0\nturn a 1\nturn b 1\n",
            b"tick a 0\nact a 0 8\ntick b 0\nact b 0 0\ntick a 1\nact a 0 2\ntick b 1\nact b 0 0\n\
var a x 2\nvar b x 0\nend\n",
        ),
        (
            "two processes in another order",
            &["world", "s", "t", "seed=0"],
            PAIR,
            b"turn b 0\nturn b 1\nturn a 0\nturn b 2\nturn a 1\n",
            b"tick b 0\nact b 0 0\ntick b 1\nact b 0 0\ntick a 0\nact a 0 8\ntick b 2\nact b 0 2\n\
tick a 1\nact a 0 2\nvar a x 2\nvar b x 2\nend\n",
        ),
        // As in the example of draws.
        (
            "throws of the seed 0",
            &["world", "s", "t", "seed=0"],
            THROWS,
            b"turn a 0\nturn a 1\nturn a 2\nturn a 3\narrive a b\narrive a b\narrive a b\n\
arrive a b\nturn b 4\nturn b 5\nturn b 6\nturn b 7\nturn b 8\n",
            b"tick a 0\nact a 0 6\nsent b 06\ntick a 1\nact a 0 2\nsent b 02\ntick a 2\n\
act a 0 3\nsent b 03\ntick a 3\nact a 0 3\nsent b 03\narrive a b\narrive a b\narrive a b\n\
arrive a b\ntick b 4\nact b 0\ntick b 5\nact b 0\ntick b 6\nact b 0 0\ntick b 7\nact b 0 0\n\
tick b 8\nidle b\nvar a die 3\nvar a left 0\nvar b high 3\nvar b low 1\nend\n",
        ),
        (
            "throws of the seed 1",
            &["world", "s", "t", "seed=1"],
            THROWS,
            b"turn a 0\nturn a 1\nturn a 2\nturn a 3\narrive a b\narrive a b\narrive a b\n\
arrive a b\nturn b 4\nturn b 5\nturn b 6\nturn b 7\nturn b 8\n",
            b"tick a 0\nact a 0 6\nsent b 06\ntick a 1\nact a 0 1\nsent b 01\ntick a 2\n\
act a 0 5\nsent b 05\ntick a 3\nact a 0 1\nsent b 01\narrive a b\narrive a b\narrive a b\n\
arrive a b\ntick b 4\nact b 0\ntick b 5\nact b 0\ntick b 6\nact b 0 1\ntick b 7\nact b 0\ntick b 8\n\
idle b\nvar a die 1\nvar a left 0\nvar b high 1\nvar b low 3\nend\n",
        ),
    ]
}

#[test]
fn choices_are_drawn(rt: HostRuntime) -> Result<(), Fail> {
    for (name, words, system, schedule, lines) in rows() {
        let case = Case {
            name,
            words,
            system,
            schedule,
            status: Status::Done,
            lines,
            ..CALM
        };
        check(&rt, rt.alloc(), &case)?;
    }
    Ok(())
}
