//! The registers and counters of a part that runs.

ghost use Rattle.std.specs.Prelude.{◌≡◌, ◌+◌, ◌<◌, ◌≤◌, ◌^◌, ◌++◌, map, take, replicate, length, slice_get, slice_set, Some, IfOk};
ghost use Rattle.code_steps.specs.Holding.{Held};

use crate::spare::{push_lows, push_zeros};
use register_code::CodeTemporary;
use std::alloc::Global;
use std::marker::Model;
use tap_base::NoMemory;

/// The number of the next instruction, the registers, and the counter of the loop that begins at
/// each instruction.
#[derive(Debug, Drop)]
pub struct Core {
    next: usize,
    registers: Vec<i64>,
    counters: Vec<u32>,
}

impl Model for Core {
    ghost use Rattle.std.specs.Prelude.{vec_capacity};
    ghost use Rattle.code_steps.specs.Holding.{Held};

    ghost Value = { Held };

    ghost view = { λ c. record { next = c.next; registers = c.registers.items; counters = c.counters.items; registers_room = vec_capacity c.registers; counters_room = vec_capacity c.counters } };
}

impl Core {
    /// These registers, with room for so many more, and for so many counters. No other call takes
    /// memory.
    pub fn new(
        alloc: Global,
        registers: Vec<i64>,
        more: usize,
        counters: usize,
    ) -> Result<Core, NoMemory>
        ensures held { IfOk result (λ core. core.registers ≡ registers.items) }
        ensures registers { IfOk result (λ core. length registers.items + more ≤ core.registers_room) }
        ensures counters { IfOk result (λ core. counters ≤ core.counters_room) }
    {
        let mut registers = registers;
        registers.reserve_exact(more)?;
        let counters = Vec::with_capacity(alloc, counters)?;
        Ok(Core {
            next: 0,
            registers,
            counters,
        })
    }

    /// A part of so many instructions begins: the first is next, the first registers stay, each
    /// temporary holds the least value of its range, and each counter is 0.
    pub fn open(&mut self, keep: usize, temporaries: &[CodeTemporary], instrs: usize)
        requires kept { keep ≤ length self.old.registers }
        requires registers { keep + length temporaries.now ≤ self.old.registers_room }
        requires counters { instrs ≤ self.old.counters_room }
        ensures { self.new ≡ record self.old { next = 0; registers = take keep self.old.registers ++ map (λ t. t.lo) temporaries.now; counters = replicate instrs 0 } }
    {
        self.next = 0;
        self.registers.truncate(keep);
        push_lows(&mut self.registers, temporaries);
        self.counters.clear();
        push_zeros(&mut self.counters, instrs);
    }

    /// All registers.
    pub fn registers(&self) -> &[i64]
        ensures { result.now ≡ self.now.registers }
    {
        self.registers.as_slice()
    }

    /// The number of the next instruction.
    pub fn next(&self) -> usize
        ensures { result ≡ self.now.next }
    {
        self.next
    }

    /// What a register holds.
    pub fn get(&self, r: usize) -> i64
        requires { r < length self.now.registers }
        ensures { slice_get self.now.registers r ≡ Some result }
    {
        self.registers[r]
    }

    /// A register holds this, and the following instruction is next.
    pub fn put(&mut self, r: usize, x: i64)
        requires there { r < length self.old.registers }
        requires small { self.old.next < 2 ^ 63 }
        ensures { self.new ≡ record self.old { next = self.old.next + 1; registers = slice_set self.old.registers r x } }
    {
        self.registers[r] = x;
        self.next += 1;
    }

    /// An instruction by its number is next.
    pub fn go(&mut self, target: usize)
        ensures { self.new ≡ record self.old { next = target } }
    {
        self.next = target;
    }

    /// A loop's counter holds this.
    pub fn count(&mut self, first: usize, left: u32)
        requires { first < length self.old.counters }
        ensures { self.new ≡ record self.old { counters = slice_set self.old.counters first left } }
    {
        self.counters[first] = left;
    }

    /// What a loop's counter holds.
    pub fn counted(&self, first: usize) -> u32
        requires { first < length self.now.counters }
        ensures { slice_get self.now.counters first ≡ Some result }
    {
        self.counters[first]
    }
}
