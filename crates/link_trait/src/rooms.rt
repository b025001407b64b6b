//! Room for byte strings that is taken beforehand, so that keeping one takes no memory.

ghost use Rattle.std.specs.Prelude.{◌≡◌, ◌≤◌, max, length, All, vec_len, OnOk, OnErr};
ghost use Rattle.link_trait.specs.Rooms.{IsRoom, one_room_less};

use std::alloc::Global;
use std::marker::Model;
use tap_base::{Bytes, NoMemory};

/// Empty buffers, of which `count` are promised, each with room for `bytes` bytes.
#[derive(Debug, Drop)]
pub(crate) struct Rooms {
    alloc: Global,
    spare: Vec<Vec<u8>>,
    count: usize,
    bytes: usize,
}

impl Model for Rooms {
    ghost use Rattle.link_trait.specs.Rooms.{AreRooms, Room};

    ghost Value = { Room };

    ghost view = { λ r. record { count = r.count; bytes = r.bytes } };

    ghost invariant = { λ r. AreRooms r.count r.bytes r.spare.items };
}

impl Rooms {
    pub(crate) fn new(alloc: Global) -> Rooms
        ensures { result ≡ record { count = 0; bytes = 0 } }
    {
        Rooms {
            alloc,
            spare: Vec::new(alloc),
            count: 0,
            bytes: 0,
        }
    }

    pub(crate) fn count(&self) -> usize
        ensures { result ≡ self.now.count }
    {
        self.count
    }

    pub(crate) fn bytes(&self) -> usize
        ensures { result ≡ self.now.bytes }
    {
        self.bytes
    }

    /// Makes room for so many byte strings of at most so many bytes, where there is less.
    pub(crate) fn reserve(&mut self, count: u32, bytes: u32) -> Result<(), NoMemory>
        ensures ok { OnOk result (self.new ≡ record { count = max self.old.count count; bytes = max self.old.bytes bytes }) }
        ensures err { OnErr result (self.new ≡ self.old) }
    {
        let count = self.count.max(count as usize);
        let bytes = bytes as usize;
        if bytes <= self.bytes {
            add_rooms(self.alloc, &mut self.spare, count, self.bytes)?;
            self.count = count;
            return Ok(());
        }
        let mut spare = Vec::new(self.alloc);
        add_rooms(self.alloc, &mut spare, count, bytes)?;
        self.spare = spare;
        self.count = count;
        self.bytes = bytes;
        Ok(())
    }

    /// Keeps a byte string in one of the buffers.
    pub(crate) fn keep(&mut self, bytes: &[u8]) -> Bytes
        requires count { 1 ≤ self.old.count }
        requires bytes { length bytes.now ≤ self.old.bytes }
        ensures bytes { result ≡ bytes.now }
        ensures rest { self.new ≡ one_room_less self.old }
    {
        let Some(room) = self.spare.pop() else {
            unreachable!();
        };
        self.count -= 1;
        Bytes {
            items: filled(room, bytes),
        }
    }
}

/// Adds empty buffers until there are so many.
fn add_rooms(
    alloc: Global,
    spare: &mut Vec<Vec<u8>>,
    count: usize,
    bytes: usize,
) -> Result<(), NoMemory>
    requires { All (IsRoom bytes) spare.old.items }
    ensures rooms { All (IsRoom bytes) spare.new.items }
    ensures more { vec_len spare.old ≤ vec_len spare.new }
    ensures ok { OnOk result (count ≤ vec_len spare.new) }
{
    for _ in spare.len()..count {
        spare.push(Vec::with_capacity(alloc, bytes)?)?;
    }
    Ok(())
}

/// A buffer with a byte string in it, for which it has room.
fn filled(room: Vec<u8>, bytes: &[u8]) -> Vec<u8>
    requires { IsRoom (length bytes.now) room }
    ensures { result.items ≡ bytes.now }
{
    let mut room = room;
    if room.extend_from_slice(bytes).is_err() {
        unreachable!();
    }
    room
}
