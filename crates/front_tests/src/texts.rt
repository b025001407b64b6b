//! How the rows write their texts, and what is shown of them.

use std::alloc::Global;
use std::fmt::Write;
use std::test::Fail;
use tap_base::Place;
use tap_front::{Offence, TextFault, accept, refused_line, tree_of};
use tap_parser::ParseFault;

/// A text without its mark `^`, and the place of the byte behind the mark.
pub fn unmarked(alloc: Global, marked: &[u8]) -> Result<(Vec<u8>, Place), Fail> {
    let mut text = Vec::new(alloc);
    let mut here = Place { line: 1, column: 1 };
    let mut place = here;
    for byte in marked {
        if *byte == b'^' {
            place = here;
            continue;
        }
        text.push(*byte)?;
        here.column = here.column.saturating_add(1);
        if *byte == b'\n' {
            here.line = here.line.saturating_add(1);
            here.column = 1;
        }
    }
    Ok((text, place))
}

/// A text with a part of it said many times.
pub fn repeated(
    alloc: Global,
    front: &str,
    part: &str,
    times: u32,
    back: &str,
) -> Result<String, Fail> {
    let mut text = String::from_str(alloc, front)?;
    for _ in 0..times {
        text.push_str(part)?;
    }
    text.push_str(back)?;
    Ok(text)
}

/// A text with a part of it said many times, each time with its number between its front and its back, from 0.
pub fn numbered(
    alloc: Global,
    front: &str,
    part: (&str, &str),
    times: u32,
    back: &str,
) -> Result<String, Fail> {
    let mut text = String::from_str(alloc, front)?;
    for number in 0..times {
        write!(text, "{}{number}{}", part.0, part.1)?;
    }
    text.push_str(back)?;
    Ok(text)
}

/// The line of an offence of this code at the mark of a text, and the line that is told of the text; a text without a
/// mark is marked at its start.
pub fn offence_lines(alloc: Global, marked: &str, code: &str) -> Result<(String, String), Fail> {
    let (text, place) = unmarked(alloc, marked.as_bytes())?;
    let wanted = format!(in alloc; "refused {code} {}:{}\n", place.line, place.column)?;
    Ok((wanted, accepted_line(alloc, text.as_slice())?))
}

/// The line of an answer at a place: it is `accepted`, or the code of an offence there.
fn answer_line(alloc: Global, answer: &str, place: Place) -> Result<String, Fail> {
    if answer == "accepted" {
        return Ok(String::from_str(alloc, "accepted\n")?);
    }
    Ok(format!(in alloc; "refused {answer} {}:{}\n", place.line, place.column)?)
}

/// The line of an answer to a text, at its mark, and the line that is told of it.
pub fn answer_lines(alloc: Global, marked: &str, answer: &str) -> Result<(String, String), Fail> {
    let (text, place) = unmarked(alloc, marked.as_bytes())?;
    let wanted = answer_line(alloc, answer, place)?;
    Ok((wanted, accepted_line(alloc, text.as_slice())?))
}

/// The line of two messages that are not told apart, by both names and at the mark of a text, and the line that is told of
/// the text.
pub fn alike_lines(alloc: Global, marked: &str, names: &str) -> Result<(String, String), Fail> {
    let (text, place) = unmarked(alloc, marked.as_bytes())?;
    let wanted = format!(in alloc; "refused M2 {}:{} {names}\n", place.line, place.column)?;
    Ok((wanted, accepted_line(alloc, text.as_slice())?))
}

/// The line of what keeps a text from being read as a tree, or that it is read.
pub fn read_line(alloc: Global, text: &[u8]) -> Result<String, Fail> {
    match tree_of(alloc, text) {
        Ok(_) => Ok(String::from_str(alloc, "read\n")?),
        Err(ParseFault::Refused(refusal)) => Ok(refused_line(alloc, &Offence::Coded(refusal))?),
        Err(ParseFault::NoMemory) => Ok(String::from_str(alloc, "no memory\n")?),
    }
}

/// The line of the first offence of a text, or that it is accepted.
pub fn accepted_line(alloc: Global, text: &[u8]) -> Result<String, Fail> {
    match accept(alloc, text) {
        Ok(_) => Ok(String::from_str(alloc, "accepted\n")?),
        Err(TextFault::Refused(offence)) => Ok(refused_line(alloc, &offence)?),
        Err(TextFault::NoMemory) => Ok(String::from_str(alloc, "no memory\n")?),
    }
}
