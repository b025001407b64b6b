//! The lines of entries, read: an action, a stop and a variable have as many words as they say values.

ghost use Rattle.std.specs.Prelude.{◌≡◌, ◌∷◌, ◌<◌, [], IfSome, MatchOption, bytes_eq, codes, length};
ghost use Rattle.std.specs.List.{position};
ghost use Rattle.run_text.specs.Names.{AreFewNames};
ghost use Rattle.run_text.specs.Operands.{words_left};
ghost use Rattle.run_text.specs.Reads.{Reads, ReadsTwo};
ghost use Rattle.trace_entries.specs.Entries.{AreEntryWords, IsLineOfEntry};
ghost use Rattle.trace_entries.specs.LineNames.{AreLineNames, IsVarWord, var_names};
ghost use Rattle.trace_entries.specs.Tails.{AreIntegerWords, AreNameWords};

use crate::closed::read_closed;
use crate::entry::Entry;
use crate::writes::vars_of;
use abstract_run::Label;
use run_text::{
    LineFault, Names, VarName, is_word, read_integer, read_name, read_short, split_word,
};
use std::alloc::Global;
use tap_base::{List, Text};

/// The entry of a line, which has no line feed.
///
/// # Errors
///
/// `BadLine` exactly where the line is that of no entry: it has another number of words, or a word that
/// is no name, no number in its range or no bytes in hexadecimal digits of lower case, or a variable has
/// another number of values than cells, or an arrival or a fault names one process twice.
pub fn read_entry(alloc: Global, line: &[u8], names: &Names) -> Result<Entry, LineFault>
    requires { AreLineNames names.now }
    ensures { Reads (IsLineOfEntry names.now line.now) result }
{
    let (keyword, left) = split_word(line);
    if is_word(keyword, "act") {
        return read_act(alloc, left, names);
    }
    if is_word(keyword, "stop") {
        return read_stop(alloc, left, names);
    }
    if is_word(keyword, "var") {
        return read_var(alloc, left, names);
    }
    read_closed(alloc, line, names)
}

/// The next word of what is left of a line, and what is left behind it; none where nothing is left.
fn next_word(left: Option<&[u8]>) -> Option<(&[u8], Option<&[u8]>)>
    ensures { MatchOption result (words_left left.entry ≡ []) (λ x. words_left left.entry ≡ x.0.now ∷ words_left x.1) }
{
    match left {
        Some(rest) => Some(split_word(rest)),
        None => None,
    }
}

/// The action of the words behind `act`.
fn read_act(alloc: Global, left: Option<&[u8]>, names: &Names) -> Result<Entry, LineFault>
    requires { AreLineNames names.now }
    ensures { Reads (AreEntryWords names.now (codes "act" ∷ words_left left.entry)) result }
{
    let Some((process, left)) = next_word(left) else {
        return Err(LineFault::BadLine);
    };
    let Some((action, choices)) = next_word(left) else {
        return Err(LineFault::BadLine);
    };
    act_of(alloc, process, action, choices, names)
}

/// The action of a process, of a number and of its choices.
fn act_of(
    alloc: Global,
    process: &[u8],
    action: &[u8],
    choices: Option<&[u8]>,
    names: &Names,
) -> Result<Entry, LineFault>
    requires { AreLineNames names.now }
    ensures { Reads (AreEntryWords names.now (codes "act" ∷ process.now ∷ action.now ∷ words_left choices.entry)) result }
{
    let process = read_name(names.processes.as_slice(), process)?;
    let action = read_short(action)?;
    let choices = match read_integers(alloc, choices) {
        Ok(choices) => choices,
        Err(fault) => return Err(fault),
    };
    Ok(Entry::Label(Label::Act {
        process,
        action,
        choices,
    }))
}

/// The stop of the words behind `stop`.
fn read_stop(alloc: Global, left: Option<&[u8]>, names: &Names) -> Result<Entry, LineFault>
    requires { AreLineNames names.now }
    ensures { Reads (AreEntryWords names.now (codes "stop" ∷ words_left left.entry)) result }
{
    let Some((process, receivers)) = next_word(left) else {
        return Err(LineFault::BadLine);
    };
    stop_of(alloc, process, receivers, names)
}

/// The stop of a process, and of the receivers of the sends that are taken back.
fn stop_of(
    alloc: Global,
    process: &[u8],
    receivers: Option<&[u8]>,
    names: &Names,
) -> Result<Entry, LineFault>
    requires { AreLineNames names.now }
    ensures { Reads (AreEntryWords names.now (codes "stop" ∷ process.now ∷ words_left receivers.entry)) result }
{
    let process = read_name(names.processes.as_slice(), process)?;
    let receivers = match read_names(alloc, receivers, names.processes.as_slice()) {
        Ok(receivers) => receivers,
        Err(fault) => return Err(fault),
    };
    Ok(Entry::Label(Label::Stop { process, receivers }))
}

/// The variable of the words behind `var`.
fn read_var(alloc: Global, left: Option<&[u8]>, names: &Names) -> Result<Entry, LineFault>
    requires { AreLineNames names.now }
    ensures { Reads (AreEntryWords names.now (codes "var" ∷ words_left left.entry)) result }
{
    let Some((process, left)) = next_word(left) else {
        return Err(LineFault::BadLine);
    };
    let Some((var, values)) = next_word(left) else {
        return Err(LineFault::BadLine);
    };
    var_of(alloc, process, var, values, names)
}

/// The variable of a process, of a name and of its values.
fn var_of(
    alloc: Global,
    process: &[u8],
    var: &[u8],
    values: Option<&[u8]>,
    names: &Names,
) -> Result<Entry, LineFault>
    requires { AreLineNames names.now }
    ensures { Reads (AreEntryWords names.now (codes "var" ∷ process.now ∷ var.now ∷ words_left values.entry)) result }
{
    let process = read_name(names.processes.as_slice(), process)?;
    let (var, cells) = match read_var_name(vars_of(names, process), var) {
        Ok(found) => found,
        Err(fault) => return Err(fault),
    };
    let values = match read_integers(alloc, values) {
        Ok(values) => values,
        Err(fault) => return Err(fault),
    };
    if values.len() != cells as usize {
        return Err(LineFault::BadLine);
    }
    Ok(Entry::Var {
        process,
        var,
        values,
    })
}

/// The number of the variable that has the name, and how many cells it has.
fn read_var_name(vars: &[VarName], word: &[u8]) -> Result<(u32, u32), LineFault>
    requires { AreFewNames (var_names vars.now) }
    ensures { ReadsTwo (IsVarWord vars.now word.now) result }
{
    match var_named(vars, word) {
        Some(at) => Ok((at as u32, vars[at].cells)),
        None => Err(LineFault::BadLine),
    }
}

/// The place of the first variable that has the name; none exactly where none has it.
fn var_named(vars: &[VarName], word: &[u8]) -> Option<usize>
    ensures place { result ≡ position (λ v. bytes_eq v.text word.now) vars.now }
    ensures within { IfSome result (λ at. at < length vars.now) }
{
    vars.iter()
        .position(|var| var.text.as_str().as_bytes() == word)
}

/// The integers of the words that are left.
fn read_integers(alloc: Global, words: Option<&[u8]>) -> Result<List<i64>, LineFault>
    ensures { Reads (AreIntegerWords (words_left words.entry)) result }
{
    let mut values = List::new(alloc);
    let mut left = words;
    while let Some(rest) = left {
        let (word, behind) = split_word(rest);
        let value = match read_integer(word) {
            Ok(value) => value,
            Err(fault) => return Err(fault),
        };
        match values.push(value) {
            Ok(()) => {}
            Err(_) => return Err(LineFault::NoMemory),
        }
        left = behind;
    }
    Ok(values)
}

/// The processes that the words that are left name.
fn read_names(alloc: Global, words: Option<&[u8]>, names: &[Text]) -> Result<List<u32>, LineFault>
    requires { AreFewNames names.now }
    ensures { Reads (AreNameWords names.now (words_left words.entry)) result }
{
    let mut processes = List::new(alloc);
    let mut left = words;
    while let Some(rest) = left {
        let (word, behind) = split_word(rest);
        let process = match read_name(names, word) {
            Ok(process) => process,
            Err(fault) => return Err(fault),
        };
        match processes.push(process) {
            Ok(()) => {}
            Err(_) => return Err(LineFault::NoMemory),
        }
        left = behind;
    }
    Ok(processes)
}
