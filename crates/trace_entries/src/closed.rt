//! The lines of entries with as many words as their keyword says.

ghost use Rattle.std.specs.Prelude.{◌∷◌, []};
ghost use Rattle.run_text.specs.Operands.{words_of};
ghost use Rattle.run_text.specs.Reads.{Reads, texts};
ghost use Rattle.trace_entries.specs.LineNames.{AreLineNames};
ghost use Rattle.trace_entries.specs.inner.Closed.{AreClosedWords, IsClosedLine};

use crate::entry::Entry;
use crate::rows::{
    read_arrive, read_copy, read_cut, read_damage, read_down, read_flood, read_forge, read_got,
    read_idle, read_lose, read_move, read_reject, read_sent, read_strangers, read_tick,
};
use abstract_run::Label;
use run_text::{LineFault, Names, first_words, is_word};
use std::alloc::Global;

/// The entry of a line, which is no action, no stop and no variable.
pub fn read_closed(alloc: Global, line: &[u8], names: &Names) -> Result<Entry, LineFault>
    requires { AreLineNames names.now }
    ensures { Reads (IsClosedLine names.now line.now) result }
{
    let words = match first_words(alloc, line) {
        Ok(words) => words,
        Err(_) => return Err(LineFault::NoMemory),
    };
    read_words(alloc, words.as_slice(), names)
}

/// The entry of words.
fn read_words(alloc: Global, words: &[&[u8]], names: &Names) -> Result<Entry, LineFault>
    requires { AreLineNames names.now }
    ensures { Reads (AreClosedWords names.now (texts words.now)) result }
{
    match words {
        [keyword] => read_of_none(*keyword, names),
        [keyword, a] => read_of_one(*keyword, *a, names),
        [keyword, a, b] => read_of_two(alloc, *keyword, *a, *b, names),
        [keyword, a, b, c] => read_of_three(alloc, *keyword, *a, *b, *c, names),
        [keyword, a, b, c, d] => read_of_four(alloc, *keyword, *a, *b, *c, *d, names),
        _ => Err(LineFault::BadLine),
    }
}

/// The entry of a keyword alone.
fn read_of_none(keyword: &[u8], names: &Names) -> Result<Entry, LineFault>
    requires { AreLineNames names.now }
    ensures { Reads (AreClosedWords names.now (keyword.now ∷ [])) result }
{
    if is_word(keyword, "void") {
        return Ok(Entry::Label(Label::Void));
    }
    if is_word(keyword, "end") {
        return Ok(Entry::End);
    }
    Err(LineFault::BadLine)
}

/// The entry of a keyword and a word behind it.
fn read_of_one(keyword: &[u8], a: &[u8], names: &Names) -> Result<Entry, LineFault>
    requires { AreLineNames names.now }
    ensures { Reads (AreClosedWords names.now (keyword.now ∷ a.now ∷ [])) result }
{
    if is_word(keyword, "idle") {
        return read_idle(a, names);
    }
    if is_word(keyword, "flood") {
        return read_flood(a, names);
    }
    if is_word(keyword, "down") {
        return read_down(a, names);
    }
    if is_word(keyword, "strangers") {
        return read_strangers(a, names);
    }
    Err(LineFault::BadLine)
}

/// The entry of a keyword and two words behind it.
fn read_of_two(
    alloc: Global,
    keyword: &[u8],
    a: &[u8],
    b: &[u8],
    names: &Names,
) -> Result<Entry, LineFault>
    requires { AreLineNames names.now }
    ensures { Reads (AreClosedWords names.now (keyword.now ∷ a.now ∷ b.now ∷ [])) result }
{
    if is_word(keyword, "tick") {
        return read_tick(a, b, names);
    }
    if is_word(keyword, "arrive") {
        return read_arrive(a, b, names);
    }
    if is_word(keyword, "cut") {
        return read_cut(a, b, names);
    }
    if is_word(keyword, "sent") {
        return read_sent(alloc, a, b, names);
    }
    Err(LineFault::BadLine)
}

/// The entry of a keyword and three words behind it.
fn read_of_three(
    alloc: Global,
    keyword: &[u8],
    a: &[u8],
    b: &[u8],
    c: &[u8],
    names: &Names,
) -> Result<Entry, LineFault>
    requires { AreLineNames names.now }
    ensures { Reads (AreClosedWords names.now (keyword.now ∷ a.now ∷ b.now ∷ c.now ∷ [])) result }
{
    if is_word(keyword, "reject") {
        return read_reject(a, b, c, names);
    }
    if is_word(keyword, "lose") {
        return read_lose(a, b, c, names);
    }
    if is_word(keyword, "copy") {
        return read_copy(a, b, c, names);
    }
    if is_word(keyword, "forge") {
        return read_forge(alloc, a, b, c, names);
    }
    if is_word(keyword, "got") {
        return read_got(alloc, a, b, c, names);
    }
    Err(LineFault::BadLine)
}

/// The entry of a keyword and four words behind it.
fn read_of_four(
    alloc: Global,
    keyword: &[u8],
    a: &[u8],
    b: &[u8],
    c: &[u8],
    d: &[u8],
    names: &Names,
) -> Result<Entry, LineFault>
    requires { AreLineNames names.now }
    ensures { Reads (AreClosedWords names.now (keyword.now ∷ a.now ∷ b.now ∷ c.now ∷ d.now ∷ [])) result }
{
    if is_word(keyword, "move") {
        return read_move(a, b, c, d, names);
    }
    if is_word(keyword, "damage") {
        return read_damage(alloc, a, b, c, d, names);
    }
    Err(LineFault::BadLine)
}
