//! A store in memory.

ghost use Rattle.std.specs.Prelude.{◌≡◌, ◌+◌, ◌≢◌, ◌≤◌, ◌<◌, ◌∷◌, ◌++◌, [], ℕ, List, None, Some, MatchOption, length, take, drop, min, OnOk, OnErr, slice_get};
ghost use Rattle.std.specs.Io.{ReadsAtMost};
ghost use Rattle.std.specs.Str.{bytes_eq};
ghost use Rattle.link_trait.specs.Calls.{with_listed, no_calls};
ghost use Rattle.link_trait.specs.Entries.{Finds, contents_at, contents_of};
ghost use Rattle.link_trait.specs.MemoryStore.{Begins, Reads};
ghost use Rattle.link_trait.specs.Outside.{Gives, HasCause, IsTold, ReadGives};

use crate::calls::Calls;
use crate::failed::Failed;
use crate::fronts::copy_front;
use crate::store::Store;
use std::alloc::Global;
use std::marker::Model;
use tap_base::{Bytes, List, NoMemory, Text};

/// Contents that were added under a name. Of two entries with one name the later counts; the earlier
/// stays, since it may be the one that is read.
#[derive(Debug, Drop)]
pub struct Entry {
    pub name: Text,
    pub contents: Bytes,
}

/// How far an entry was read.
#[derive(Clone, Copy, Debug)]
struct Cursor {
    entry: usize,
    at: usize,
}

/// Named contents in memory, of which a read gives at most a piece.
#[derive(Debug, Drop)]
pub struct MemoryStore {
    alloc: Global,
    entries: List<Entry>,
    cursor: Option<Cursor>,
    piece: u32,
    calls: Calls,
}

impl Model for MemoryStore {
    ghost use Rattle.std.specs.Prelude.{◌≤◌};
    ghost use Rattle.link_trait.specs.Entries.{StandsIn, left_at};
    ghost use Rattle.link_trait.specs.MemoryStore.{StoreValue};

    ghost Value = { StoreValue };

    ghost view = { λ s. record { entries = s.entries; left = left_at s.entries s.cursor; piece = s.piece; calls = s.calls } };

    ghost invariant = { λ s. (1 ≤ s.piece) × StandsIn s.entries s.cursor };
}

impl MemoryStore {
    /// A store with no names and no call listed, whose reads give at most `piece` bytes.
    pub fn new(alloc: Global, piece: u32) -> MemoryStore
        requires { 1 ≤ piece }
        ensures { result ≡ record { entries = []; left = []; piece = piece; calls = no_calls } }
    {
        MemoryStore {
            alloc,
            entries: List::new(alloc),
            cursor: None,
            piece,
            calls: Calls::new(alloc),
        }
    }

    /// Adds a name, or replaces its contents. What is left of contents that were begun stays.
    #[tactic(auto, using(crate::proofs::EntriesHeld::named_last, crate::proofs::EntriesHeld::others_stay))]
    pub fn add(&mut self, name: &str, contents: &[u8]) -> Result<(), NoMemory>
        ensures ok { OnOk result (self.new ≡ record self.old { entries = self.old.entries ++ record { name = name.now; contents = contents.now } ∷ [] }) }
        ensures named { OnOk result (contents_of self.new.entries name.now ≡ Some contents.now) }
        ensures others { (n : List ℕ) → n ≢ name.now → contents_of self.new.entries n ≡ contents_of self.old.entries n }
        ensures err { OnErr result (self.new ≡ self.old) }
    {
        let entry = Entry {
            name: Text::copy_of(self.alloc, name)?,
            contents: Bytes::copy_of(self.alloc, contents)?,
        };
        self.entries.push(entry)
    }

    /// Lists a call that is to fail, `begin` and `read` being counted together from 1.
    pub fn fail(&mut self, call: u64) -> Result<(), NoMemory>
        ensures ok { OnOk result (self.new ≡ record self.old { calls = with_listed self.old.calls call }) }
        ensures err { OnErr result (self.new ≡ self.old) }
    {
        self.calls.fail(call)
    }
}

impl Store for MemoryStore {
    ghost contents = { λ s n. contents_of s.entries n };

    ghost left = { λ s. Some s.left };

    ghost faults = { λ s. s.calls.faults };

    #[tactic(auto, using(crate::proofs::EntriesHeld::found_there, crate::proofs::EntriesHeld::found_nowhere))]
    fn begin(&mut self, name: &str) -> Result<(), Failed>
        ensures begins { Begins self.old name.now result self.new }
        ensures begun { OnOk result (Some self.new.left ≡ contents_of self.old.entries name.now) }
        ensures told { OnOk result (IsTold (Some self.old.left) → IsTold (Some self.new.left)) }
        ensures kept { OnErr result (Some self.new.left ≡ Some self.old.left) }
        ensures stays { (n : List ℕ) → contents_of self.new.entries n ≡ contents_of self.old.entries n }
        ensures cause { HasCause self.old.calls.faults self.new.calls.faults result }
    {
        let found = find(self.entries.as_slice(), name);
        self.calls.count(found.is_some())?;
        self.cursor = found;
        Ok(())
    }

    fn read(&mut self, buf: &mut [u8]) -> Result<usize, Failed>
        ensures reads { Reads self.old result buf.new self.new }
        ensures within { ReadsAtMost result buf.new }
        ensures gives { ReadGives (Some self.old.left) (Some self.new.left) result buf.new }
        ensures stays { (n : List ℕ) → contents_of self.new.entries n ≡ contents_of self.old.entries n }
        ensures cause { HasCause self.old.calls.faults self.new.calls.faults result }
    {
        self.calls.count(true)?;
        let Some(cursor) = self.cursor else {
            return Ok(0);
        };
        let bytes = contents(self.entries.as_slice(), cursor.entry);
        let count = give(bytes, cursor.at, buf, self.piece as usize);
        self.cursor = Some(Cursor {
            entry: cursor.entry,
            at: cursor.at + count,
        });
        Ok(count)
    }
}

fn is_named(entry: &Entry, name: &str) -> bool
    ensures { result ≡ bytes_eq entry.now.name name.now }
{
    entry.name.as_str() == name
}

/// The front of the last entry of a name.
fn find(entries: &[Entry], name: &str) -> Option<Cursor>
    ensures { Finds entries.now (length entries.now) name.now result }
{
    let mut found = None;
    for at in 0..entries.len() {
        if is_named(&entries[at], name) {
            found = Some(Cursor { entry: at, at: 0 });
        }
    }
    found
}

fn contents(entries: &[Entry], at: usize) -> &[u8]
    requires { at < length entries.now }
    ensures { result.now ≡ contents_at entries.now at }
{
    entries[at].contents.as_slice()
}

/// Gives the front of what is left from a place on, at most `piece` bytes, and says how many.
fn give(bytes: &[u8], at: usize, buf: &mut [u8], piece: usize) -> usize
    requires { 1 ≤ piece }
    ensures count { result ≡ min (min (length (drop at bytes.now)) (length buf.new)) piece }
    ensures front { take result buf.new ≡ take result (drop at bytes.now) }
    ensures gives { Gives (Some (drop at bytes.now)) (Some (drop (at + result) bytes.now)) result buf.new }
{
    let most = buf.len().min(piece);
    copy_front(rest(bytes, at), &mut buf[..most])
}

/// What is left from a place on.
fn rest(bytes: &[u8], at: usize) -> &[u8]
    ensures { result.now ≡ drop at bytes.now }
{
    if at <= bytes.len() { &bytes[at..] } else { &[] }
}
