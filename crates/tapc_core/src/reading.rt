//! The contents of a name, read in one go.

ghost use Rattle.std.specs.Prelude.{◌≡◌, ◌≤◌, ◌<◌, ℕ, List, length, IfOk, OnOk};
ghost use Rattle.link_trait.specs.Outside.{IsTold};
ghost use Rattle.tapc_core.specs.Reading.{HasReadCause, LeavesText, ReadsFront, ReadsText, ReadsWhole};

use link_trait::{Failed, Store};
use std::alloc::Global;
use tap_base::{List, NoMemory};
use tap_front::LONGEST_TEXT;

/// How many bytes a read asks for at most.
const PIECE: usize = 4096;

/// Why contents were not read.
#[derive(Clone, Copy, Debug, PartialEq, Eq)]
pub enum ReadError {
    /// Memory was refused.
    NoMemory,
    /// A call of the store failed.
    Failed,
}

impl From<NoMemory> for ReadError {
    ghost use Rattle.tapc_core.specs.declared.reading.ReadError.TheVariants as errors;

    ghost from_gives = { λ _ e. e ≡ errors.NoMemory };

    fn from(_e: NoMemory) -> ReadError {
        ReadError::NoMemory
    }
}

impl From<Failed> for ReadError {
    ghost use Rattle.tapc_core.specs.declared.reading.ReadError.TheVariants as errors;

    ghost from_gives = { λ _ e. e ≡ errors.Failed };

    fn from(_e: Failed) -> ReadError {
        ReadError::Failed
    }
}

/// What was read of a text.
#[derive(Debug, Drop)]
pub enum Reading {
    /// All of it.
    Whole(List<u8>),
    /// One byte more than a text has at most.
    TooLong,
}

/// Reads the first `most` bytes of the contents of a name, or all where they are fewer.
pub fn read_front<S: Store>(
    alloc: Global,
    store: &mut S,
    name: &str,
    most: usize,
) -> Result<List<u8>, ReadError>
    ensures within { IfOk result (λ bytes. length bytes ≤ most) }
    ensures front { IfOk result (λ bytes. ReadsFront (S.contents store.old name.now) most bytes (S.left store.new)) }
    ensures found { OnOk result (IsTold (S.left store.old) → IsTold (S.contents store.old name.now)) }
    ensures stays { (n : List ℕ) → S.contents store.new n ≡ S.contents store.old n }
    ensures cause { HasReadCause (S.faults store.old) (S.faults store.new) result }
{
    let mut bytes = List::new(alloc);
    let mut buf = [0u8; PIECE];
    store.begin(name)?;
    while bytes.len() < most {
        let room = (most - bytes.len()).min(PIECE);
        let piece = &mut buf[..room];
        let count = store.read(piece)?;
        if count == 0 {
            break;
        }
        bytes.append_slice(&piece[..count])?;
    }
    Ok(bytes)
}

/// Reads the contents of a name whole.
pub fn read_whole<S: Store>(alloc: Global, store: &mut S, name: &str) -> Result<List<u8>, ReadError>
    ensures whole { IfOk result (λ bytes. ReadsWhole (S.contents store.old name.now) bytes (S.left store.new)) }
    ensures found { OnOk result (IsTold (S.left store.old) → IsTold (S.contents store.old name.now)) }
    ensures stays { (n : List ℕ) → S.contents store.new n ≡ S.contents store.old n }
    ensures cause { HasReadCause (S.faults store.old) (S.faults store.new) result }
{
    let bytes = read_front(alloc, store, name, usize::MAX)?;
    // No list is so long that the limit cut the contents.
    let fits = bytes.as_slice().len() < usize::MAX;
    prove!(fits);
    Ok(bytes)
}

/// Reads the text of a system. Of a text that is too long, the first byte past the limit is read and
/// no further one.
pub fn read_text<S: Store>(alloc: Global, store: &mut S, name: &str) -> Result<Reading, ReadError>
    ensures text { IfOk result (λ reading. ReadsText (S.contents store.old name.now) reading (S.left store.new)) }
    ensures left { OnOk result (LeavesText (S.contents store.old name.now) (S.left store.new)) }
    ensures found { OnOk result (IsTold (S.left store.old) → IsTold (S.contents store.old name.now)) }
    ensures stays { (n : List ℕ) → S.contents store.new n ≡ S.contents store.old n }
    ensures cause { HasReadCause (S.faults store.old) (S.faults store.new) result }
{
    let bytes = read_front(alloc, store, name, LONGEST_TEXT + 1)?;
    if bytes.len() <= LONGEST_TEXT {
        Ok(Reading::Whole(bytes))
    } else {
        Ok(Reading::TooLong)
    }
}
