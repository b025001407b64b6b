//! What a part costs and sends at most.

ghost use Rattle.std.specs.Prelude.{◌≡◌, ◌+◌, ◌*◌, ◌≤◌, Some, slice_get};
ghost use Rattle.register_code.specs.Loops as spec;
ghost use Rattle.register_code.specs.Jumping.{AreWhole};
ghost use Rattle.register_code.specs.Verified.{whole_rules};

use register_code::{Instr, begun_by, ended_by};
use tap_base::item;

/// The count of the loop that begins at a number.
fn count_at(instrs: &[Instr], first: usize) -> u64
    ensures { result ≡ spec.count_at (slice_get instrs.now first) }
{
    match item(instrs, first) {
        Some(Instr::Repeat { count, last: _ }) => *count as u64,
        _ => 1,
    }
}

/// The weight of the instruction that follows.
pub(crate) fn next_weight(instrs: &[Instr], at: usize, instr: Instr, weight: u64) -> u64
    requires whole { AreWhole instrs.now }
    requires here { slice_get instrs.now at ≡ Some instr }
    requires was { weight ≡ spec.weight instrs.now at }
    requires small { weight ≤ 16000000 }
    ensures value { result ≡ spec.weight instrs.now (at + 1) }
    ensures wide { result ≤ 1048576000000 }
{
    if let Some(found) = begun_by(instr) {
        return weight * found.count as u64;
    }
    if let Some(first) = ended_by(instr) {
        let count = count_at(instrs, first as usize);
        return weight / count;
    }
    weight
}

fn sends(instr: Instr, weight: u64) -> u64
    ensures { result ≡ spec.one_send instr * weight }
{
    match instr {
        Instr::Send { .. } => weight,
        _ => 0,
    }
}

/// The first rule on a whole part that is broken. One pass serves, since a loop's count goes into
/// the weight at its beginning and out at its end.
pub(crate) fn whole_rule(instrs: &[Instr]) -> Option<u8>
    requires { AreWhole instrs.now }
    ensures { result ≡ slice_get (whole_rules instrs.now) 0 }
{
    let mut weight = 1;
    let mut steps = 0;
    let mut sent = 0;
    for at in 0..instrs.len() {
        steps += weight;
        if steps > 16000000 {
            return Some(11);
        }
        sent += sends(instrs[at], weight);
        weight = next_weight(instrs, at, instrs[at], weight);
    }
    if sent > 64 { Some(12) } else { None }
}
