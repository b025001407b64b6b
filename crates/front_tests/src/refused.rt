//! The first offence that keeps a text from being read as a tree.

use super::texts::{read_line, repeated, unmarked};
use std::alloc::Global;
use std::test::Fail;
use tap_base::{Place, Refusal, RefusalCode, Text};
use tap_front::{Offence, refused_line};

/// The line of a text that is refused with this code at its mark, and the line that is told of it.
fn lines(alloc: Global, marked: &[u8], code: &str) -> Result<(String, String), Fail> {
    let (text, place) = unmarked(alloc, marked)?;
    let wanted = format!(in alloc; "refused {code} {}:{}\n", place.line, place.column)?;
    Ok((wanted, read_line(alloc, text.as_slice())?))
}

#[test]
fn bytes_are_refused_at_the_mark(rt: HostRuntime) -> Result<(), Fail> {
    let table = [
        ("a delete", b"^\x7f".as_slice(), "L1"),
        ("a null on a second line", b"a\n ^\x00", "L1"),
        ("a high byte behind a name", b"a^\xc8", "L1"),
        ("a delete in a comment", b"# a^\x7f b", "L1"),
        ("a null in a comment", b"a\n#^\x00", "L1"),
        ("a high byte in a second comment", b"# a\n# a ^\xc8", "L1"),
        ("an exclamation mark behind a name", b"a ^! b", "L1"),
        ("an exclamation mark", b"^!", "L1"),
        ("an exclamation mark behind an unequal sign", b"!=^!", "L1"),
        ("an exclamation mark behind a comment", b"# !\n^! =", "L1"),
        ("a low line", b"^_a", "L1"),
        ("a dollar sign", b"a ^$", "L1"),
        ("2 ^ 63", b"^9223372036854775808", "L2"),
        ("2 ^ 64 + 1", b"^18446744073709551617", "L2"),
        (
            "2 ^ 63 behind zeros",
            b"x:=^0000000000000000000000000000009223372036854775808",
            "L2",
        ),
        (
            "2 ^ 63 before a word",
            b"1\n ^9223372036854775808bits",
            "L2",
        ),
        (
            "2 ^ 63 before an exclamation mark",
            b"^9223372036854775808 !",
            "L2",
        ),
        (
            "2 ^ 63 behind an exclamation mark",
            b"^! 9223372036854775808",
            "L1",
        ),
        (
            "2 ^ 63 before a null in a comment",
            b"^9223372036854775808 # \x00",
            "L2",
        ),
    ];
    for (name, marked, code) in table {
        let (wanted, found) = lines(rt.alloc(), marked, code)?;
        assert!(rt; found.as_str() == wanted.as_str(), "{name}: {found}");
    }
    Ok(())
}

#[test]
fn tokens_are_refused_at_the_mark(rt: HostRuntime) -> Result<(), Fail> {
    let table = [
        "^",
        "^ #",
        "^begin end",
        "process ^begin end",
        "process a ^a begin end",
        "process a ^end",
        "process a begin^",
        "process a begin end ^end",
        "process a ^; begin end",
        "process a const ^begin end",
        "process a const k ^begin end",
        "process a const k = ^begin end",
        "process a const k = 1 ^2 begin end",
        "process a const k = 1; ^begin end",
        "process a const k = 1 ^, l = 2 begin end",
        "process a const k = - ^- 1 begin end",
        "process a const k = ^x begin end",
        "process a const k ^: 1 begin end",
        "process a const k = 1 ^const l = 2 begin end",
        "process a inp x : ^begin end",
        "process a inp x ^= 1 begin end",
        "process a inp x : 0 ^begin end",
        "process a inp x : 0 .. ^begin end",
        "process a inp x : 0 .. 1 ^= 0 begin end",
        "process a inp x : ^array 2 of boolean begin end",
        "process a inp x : boolean ^.. 1 begin end",
        "process a var x : 0 .. 1 = ^begin end",
        "process a var x : boolean = ^true begin end",
        "process a var x : 0 .. 1 = ^(1) begin end",
        "process a var x : 0 .. ^(k) begin end",
        "process a var x : 0 .. 1 = 0 ^= 0 begin end",
        "process a var x : array ^of boolean begin end",
        "process a var x : array 2 ^boolean begin end",
        "process a var x : array 2 of ^array 2 of boolean begin end",
        "process a var x : array ^k of boolean begin end",
        "process a var x : - ^k .. 1 begin end",
        "process a var y : 0 .. 1 ^inp x : 0 .. 1 begin end",
        "process a timer ^begin end",
        "process a timer t ^u begin end",
        "process a timer t, ^begin end",
        "process a timer t ^; u begin end",
        "message ^begin f : 1 bits end process a begin end",
        "message m ^f : 1 bits end process a begin end",
        "message m begin ^end process a begin end",
        "message m begin f ^1 bits end process a begin end",
        "message m begin f : ^bits end process a begin end",
        "message m begin f : 1 ^end process a begin end",
        "message m begin f : 1 bits = ^end process a begin end",
        "message m begin f : 1 bits = ^- 1 end process a begin end",
        "message m begin f : 1 bits; ^end process a begin end",
        "message m begin f : 1 bits end^",
        "process a begin end ^message m begin f : 1 bits end",
        "process a begin true ^skip end",
        "process a begin ^-> skip end",
        "process a begin true -> ^end",
        "process a begin true -> skip ^skip end",
        "process a begin true -> skip; ^end",
        "process a begin true -> skip [] ^end",
        "process a begin true -> skip ^[ ] true -> skip end",
        "process a begin true -> skip ^true -> skip end",
        "process a begin rcv ^from b -> skip end",
        "process a begin rcv m ^b -> skip end",
        "process a begin rcv m from ^-> skip end",
        "process a begin timeout ^-> skip end",
        "process a begin timeout t ^and x -> skip end",
        "process a begin true -> x ^= 1 end",
        "process a begin true -> x, ^:= 1 end",
        "process a begin true -> x := ^end",
        "process a begin true -> x := 1, ^end",
        "process a begin true -> x^[] := 1 end",
        "process a begin true -> x[1 ^:= 1 end",
        "process a begin true -> x[1] ^[2] := 1 end",
        "process a begin true -> ^1 := x end",
        "process a begin true -> x ^y := 1 end",
        "process a begin true -> choose ^end",
        "process a begin true -> choose ^1 end",
        "process a begin true -> choose x ^:= 1 end",
        "process a begin true -> send ^(1) to b end",
        "process a begin true -> send m ^1) to b end",
        "process a begin true -> send m (^, 1) to b end",
        "process a begin true -> send m (1 ^2) to b end",
        "process a begin true -> send m (1, ^) to b end",
        "process a begin true -> send m (1) ^b end",
        "process a begin true -> send m (1) to ^end",
        "process a begin true -> start ^after 1 end",
        "process a begin true -> start t ^1 end",
        "process a begin true -> start t after ^end",
        "process a begin true -> stop ^end",
        "process a begin true -> if ^fi end",
        "process a begin true -> if x ^skip fi end",
        "process a begin true -> if x -> skip ^end",
        "process a begin true -> if x -> skip [] ^fi end",
        "process a begin true -> if x -> skip ^od end",
        "process a begin true -> do ^times x -> skip od end",
        "process a begin true -> do 3 ^x -> skip od end",
        "process a begin true -> do 3 times ^od end",
        "process a begin true -> do 3 times x -> skip ^fi end",
        "process a begin true -> do ^x times y -> skip od end",
        "process a begin true -> do ^- 1 times y -> skip od end",
        "process ^process a begin end",
        "process a begin true -> ^-> skip end",
        "process a begin true -> skip; ^; skip end",
    ];
    for marked in table {
        let (wanted, found) = lines(rt.alloc(), marked.as_bytes(), "S1")?;
        assert!(rt; found.as_str() == wanted.as_str(), "{marked}: {found}");
    }
    Ok(())
}

#[test]
fn each_form_of_the_grammar_is_read(rt: HostRuntime) -> Result<(), Fail> {
    let table = [
        "process a begin end",
        "process a const k = 1 begin end",
        "process a const k = - 1; l = 2 begin end",
        "process a inp x : boolean; y : 0 .. k begin end",
        "process a var x : boolean begin end",
        "process a var x : - 1 .. 1 = - 1; y : array 4 of boolean = k begin end",
        "process a timer t begin end",
        "process a timer t, u begin end",
        "process a const k = 1 inp x : 0 .. 1 var y : 0 .. 1 timer t begin true -> skip end",
        "message m begin f : 1 bits end process a begin end",
        "message m begin f : 1 bits = 1; g : 2 bits end message n begin h : 3 bits end process a begin end process b begin end",
        "process a begin rcv m from b -> skip [] timeout t -> skip [] x = 1 -> skip end",
        "process a begin true -> x := 1 end",
        "process a begin true -> x, y[1] := y[0], 2 end",
        "process a begin true -> choose x; choose y[i + 1] end",
        "process a begin true -> send m () to b; send m (1, x) to b end",
        "process a begin true -> start t after 5; stop t end",
        "process a begin true -> if x -> skip fi end",
        "process a begin true -> if x -> skip [] y -> skip; skip fi; do 3 times x -> skip [] y -> skip od end",
    ];
    for text in table {
        let found = read_line(rt.alloc(), text.as_bytes())?;
        assert!(rt; found.as_str() == "read\n", "{text}: {found}");
    }
    Ok(())
}

#[test]
fn the_limits_are_told_in_their_order(rt: HostRuntime) -> Result<(), Fail> {
    let table = [
        ("process a begin ", "(", 32, "", "refused S1 1:49\n"),
        ("process a begin ", "(", 33, "", "refused S2 1:49\n"),
        (
            "process a begin true -> ",
            "if ",
            33,
            "",
            "refused S2 1:121\n",
        ),
        ("process a begin ] ", "(", 34, "", "refused S2 1:52\n"),
        ("end ", "(", 33, "", "refused S2 1:37\n"),
        (
            "process a begin true -> x := -1",
            " + 1",
            99,
            " end",
            "read\n",
        ),
        (
            "process a begin true -> x := 1",
            " + 1",
            100,
            " end",
            "refused S3 1:30\n",
        ),
        (
            "process a begin true -> x := (1",
            " + 1",
            100,
            ") end",
            "refused S3 1:30\n",
        ),
        (
            "process a begin 1",
            " + 1",
            100,
            " -> skip end",
            "refused S3 1:17\n",
        ),
        (
            "process a begin true -> x[1",
            " + 1",
            99,
            "] := 1 end",
            "read\n",
        ),
        (
            "process a begin true -> x[1",
            " + 1",
            100,
            "] := y end",
            "refused S3 1:27\n",
        ),
        (
            "process a begin true -> if 1",
            " + 1",
            100,
            " -> x := 1 fi end",
            "refused S3 1:28\n",
        ),
        (
            "process a begin true -> x := 1",
            " + 1",
            100,
            "",
            "refused S1 1:431\n",
        ),
        (
            "process a begin true -> skip [] true -> send m (2, 1",
            " + 1",
            100,
            ", 3) to b end",
            "refused S3 1:52\n",
        ),
        (
            "process a begin true -> x := 1",
            " + 1",
            100,
            "; y := 1 end process b begin skip end",
            "refused S1 1:460\n",
        ),
    ];
    for (front, part, times, back, wanted) in table {
        let text = repeated(rt.alloc(), front, part, times, back)?;
        let found = read_line(rt.alloc(), text.as_bytes())?;
        assert!(rt;
            found.as_str() == wanted,
            "{front} and {times} times {part}: {found}"
        );
    }
    Ok(())
}

/// What is longer than a text may be is refused at its start, whatever it holds.
#[test]
fn a_text_has_a_longest_length(rt: HostRuntime) -> Result<(), Fail> {
    for (times, wanted) in [
        (1_048_576, "refused L1 1:1\n"),
        (1_048_577, "refused L0 1:1\n"),
    ] {
        let text = repeated(rt.alloc(), "", "$", times, "")?;
        let found = read_line(rt.alloc(), text.as_bytes())?;
        assert!(rt; found.as_str() == wanted, "{times}: {found}");
    }
    Ok(())
}

#[test]
fn a_code_is_printed_as_it_is_named(rt: HostRuntime) -> Result<(), Fail> {
    let table = [
        RefusalCode::L0,
        RefusalCode::L1,
        RefusalCode::L2,
        RefusalCode::S1,
        RefusalCode::S2,
        RefusalCode::S3,
        RefusalCode::N1,
        RefusalCode::N2,
        RefusalCode::N3,
        RefusalCode::K1,
        RefusalCode::K2,
        RefusalCode::X1,
        RefusalCode::X2,
        RefusalCode::M1,
        RefusalCode::M2,
        RefusalCode::M3,
        RefusalCode::W1,
        RefusalCode::W2,
        RefusalCode::W3,
        RefusalCode::W4,
        RefusalCode::W5,
        RefusalCode::W6,
        RefusalCode::W7,
    ];
    for code in table {
        let place = Place { line: 2, column: 3 };
        let offence = Offence::Coded(Refusal { code, place });
        let wanted = format!(in rt.alloc(); "refused {code:?} 2:3\n")?;
        let found = refused_line(rt.alloc(), &offence)?;
        assert!(rt; found.as_str() == wanted.as_str(), "{code:?}: {found}");
    }
    Ok(())
}

#[test]
fn messages_that_are_alike_are_named(rt: HostRuntime) -> Result<(), Fail> {
    let offence = Offence::Alike {
        place: Place { line: 2, column: 3 },
        first: Text::copy_of(rt.alloc(), "ping")?,
        second: Text::copy_of(rt.alloc(), "pong")?,
    };
    let found = refused_line(rt.alloc(), &offence)?;
    assert!(rt; found.as_str() == "refused M2 2:3 ping pong\n", "{found}");
    Ok(())
}
