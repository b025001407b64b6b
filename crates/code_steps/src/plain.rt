//! One instruction that neither chooses nor sends nor sets a timer.

ghost use Rattle.std.specs.Prelude.{◌≡◌, ◌+◌, ◌<◌, ◌^◌, true, length};
ghost use Rattle.register_code.specs.Instructions.{Moment, Setting, computes, does, place_at};
ghost use Rattle.code_steps.specs.Moving.{CanCompute, CanIndex, CanMove, Moves, MovesBy, is_plain};

use crate::arithmetic::compute;
use crate::registers::Core;
use register_code::Instr;
use tap_base::Op;

#[tactic(auto, using(crate::proofs::Moved::computed))]
fn operate(core: &mut Core, o: Op, r: u32, a: u32, b: u32)
    requires can { CanCompute o r a b core.old }
    requires small { core.old.next < 2 ^ 63 }
    ensures { MovesBy (computes o r a b) core.old core.new }
{
    let x = core.get(a as usize);
    let y = core.get(b as usize);
    core.put(r as usize, compute(o, x, y));
}

#[tactic(auto, using(crate::proofs::Moved::loaded_const))]
fn set(core: &mut Core, r: u32, imm: i64)
    requires to { r < length core.old.registers }
    requires small { core.old.next < 2 ^ 63 }
    ensures { (e : Setting) → MovesBy (does e (Instr.Const r imm)) core.old core.new }
{
    core.put(r as usize, imm);
}

#[tactic(auto, using(crate::proofs::Moved::copied))]
fn copy(core: &mut Core, r: u32, a: u32)
    requires to { r < length core.old.registers }
    requires from { a < length core.old.registers }
    requires small { core.old.next < 2 ^ 63 }
    ensures { (e : Setting) → MovesBy (does e (Instr.Copy r a)) core.old core.new }
{
    let x = core.get(a as usize);
    core.put(r as usize, x);
}

/// The cell of a run that an index names.
#[tactic(auto, using(crate::proofs::Moved::placed, crate::proofs::Moved::indexed))]
fn place(core: &Core, base: u32, run: u32, index: u32) -> usize
    requires { CanIndex base run index core.now }
    ensures place { (m : Moment) → m.registers ≡ core.now.registers → place_at base run index m ≡ Some result }
    ensures within { result < length core.now.registers }
{
    base as usize + core.get(index as usize).unsigned_abs() as usize
}

fn load(core: &mut Core, r: u32, base: u32, run: u32, index: u32)
    requires to { r < length core.old.registers }
    requires from { CanIndex base run index core.old }
    requires small { core.old.next < 2 ^ 63 }
    ensures { (e : Setting) → MovesBy (does e (Instr.Load r base run index)) core.old core.new }
{
    let x = core.get(place(core, base, run, index));
    core.put(r as usize, x);
}

fn save(core: &mut Core, base: u32, run: u32, index: u32, a: u32)
    requires to { CanIndex base run index core.old }
    requires from { a < length core.old.registers }
    requires small { core.old.next < 2 ^ 63 }
    ensures { (e : Setting) → MovesBy (does e (Instr.Save base run index a)) core.old core.new }
{
    let x = core.get(a as usize);
    let to = place(core, base, run, index);
    core.put(to, x);
}

#[tactic(auto, using(crate::proofs::Moved::heard))]
fn hear(core: &mut Core, r: u32, field: u32, received: &[i64])
    requires to { r < length core.old.registers }
    requires from { field < length received.now }
    requires small { core.old.next < 2 ^ 63 }
    ensures { Moves received.now (Instr.Part r field) core.old core.new }
{
    core.put(r as usize, received[field as usize]);
}

#[tactic(auto, using(crate::proofs::Moved::branched))]
fn branch(core: &mut Core, a: u32, imm: i64, target: u32)
    requires from { a < length core.old.registers }
    requires small { core.old.next < 2 ^ 63 }
    ensures { (e : Setting) → MovesBy (does e (Instr.JumpNe a imm target)) core.old core.new }
{
    let to = if core.get(a as usize) == imm {
        core.next() + 1
    } else {
        target as usize
    };
    core.go(to);
}

#[tactic(auto, using(crate::proofs::Moved::jumped))]
fn jump(core: &mut Core, target: u32)
    ensures { (e : Setting) → MovesBy (does e (Instr.Jump target)) core.old core.new }
{
    core.go(target as usize);
}

/// A loop begins: its counter holds how often it runs.
#[tactic(auto, using(crate::proofs::Moved::begun))]
fn begin(core: &mut Core, count: u32, last: u32)
    requires there { core.old.next < length core.old.counters }
    requires small { core.old.next < 2 ^ 63 }
    ensures { (e : Setting) → MovesBy (does e (Instr.Repeat count last)) core.old core.new }
{
    let at = core.next();
    core.count(at, count);
    core.go(at + 1);
}

/// A loop ends: its counter falls by one, and above 0 the loop runs again.
#[tactic(auto, using(crate::proofs::Moved::turned))]
fn turn(core: &mut Core, first: u32)
    requires there { first < length core.old.counters }
    requires small { core.old.next < 2 ^ 63 }
    ensures { (e : Setting) → MovesBy (does e (Instr.Again first)) core.old core.new }
{
    let left = core.counted(first as usize).saturating_sub(1);
    core.count(first as usize, left);
    let to = if 0 < left {
        first as usize + 1
    } else {
        core.next() + 1
    };
    core.go(to);
}

/// One instruction, with these received values.
#[inline(always)]
pub fn move_on(core: &mut Core, instr: Instr, received: &[i64])
    requires can { CanMove received.now instr core.old }
    requires plain { is_plain instr ≡ true }
    requires small { core.old.next < 2 ^ 63 }
    ensures { Moves received.now instr core.old core.new }
{
    match instr {
        Instr::Const { r, imm } => set(core, r, imm),
        Instr::Copy { r, a } => copy(core, r, a),
        Instr::Add { r, a, b } => operate(core, Op::Add, r, a, b),
        Instr::Sub { r, a, b } => operate(core, Op::Sub, r, a, b),
        Instr::Mul { r, a, b } => operate(core, Op::Mul, r, a, b),
        Instr::Div { r, a, b } => operate(core, Op::Div, r, a, b),
        Instr::Mod { r, a, b } => operate(core, Op::Mod, r, a, b),
        Instr::Min { r, a, b } => operate(core, Op::Min, r, a, b),
        Instr::Max { r, a, b } => operate(core, Op::Max, r, a, b),
        Instr::Eq { r, a, b } => operate(core, Op::Eq, r, a, b),
        Instr::Ne { r, a, b } => operate(core, Op::Ne, r, a, b),
        Instr::Lt { r, a, b } => operate(core, Op::Lt, r, a, b),
        Instr::Le { r, a, b } => operate(core, Op::Le, r, a, b),
        Instr::Load {
            r,
            base,
            length,
            index,
        } => load(core, r, base, length, index),
        Instr::Save {
            base,
            length,
            index,
            a,
        } => save(core, base, length, index, a),
        Instr::Part { r, field } => hear(core, r, field, received),
        Instr::Jump { target } => jump(core, target),
        Instr::JumpNe { a, imm, target } => branch(core, a, imm, target),
        Instr::Repeat { count, last } => begin(core, count, last),
        Instr::Again { first } => turn(core, first),
        Instr::Choose { .. }
        | Instr::Select { .. }
        | Instr::Send { .. }
        | Instr::Start { .. }
        | Instr::Stop { .. } => unreachable!(),
    }
}
