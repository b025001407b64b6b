//! What a part sends and chooses at most.

ghost use Rattle.std.specs.Prelude.{◌≡◌, ◌+◌, ◌*◌, ◌<◌, ◌≤◌, true, length, slice_get, Some};
ghost use Rattle.std.specs.List.{list_all};
ghost use Rattle.register_code.specs.Declarations.{at_most};
ghost use Rattle.register_code.specs.Jumping.{AreWhole};
ghost use Rattle.register_code.specs.Loops as spec;
ghost use Rattle.action_code.specs.Using.{IsUse, fields_in, one_value};

use crate::costs::next_weight;
use register_code::{CodeMessage, Instr};
use tap_base::item;

/// How often a part sends at most, how many values its sends have, and how often it chooses. What a
/// loop holds counts as often as the loop runs.
#[derive(Clone, Copy, Debug, PartialEq, Eq)]
pub struct Uses {
    pub sends: u64,
    pub values: u64,
    pub choices: u64,
}

fn instr_at(instrs: &[Instr], at: usize) -> Instr
    requires { at < length instrs.now }
    ensures { slice_get instrs.now at ≡ Some result }
{
    instrs[at]
}

fn send_count(instr: Instr) -> u64
    ensures value { result ≡ spec.one_send instr }
    ensures few { result ≤ 1 }
{
    match instr {
        Instr::Send { .. } => 1,
        _ => 0,
    }
}

fn choice_count(instr: Instr) -> u64
    ensures value { result ≡ spec.one_choice instr }
    ensures few { result ≤ 1 }
{
    match instr {
        Instr::Choose { .. } | Instr::Select { .. } => 1,
        _ => 0,
    }
}

fn field_count(messages: &[CodeMessage], message: u32) -> u64
    ensures { result ≡ fields_in (slice_get messages.now message) }
{
    match item(messages, message as usize) {
        Some(message) => message.fields.len() as u64,
        None => 0,
    }
}

fn value_count(messages: &[CodeMessage], instr: Instr) -> u64
    ensures { result ≡ one_value messages.now instr }
{
    match instr {
        Instr::Send { message, .. } => field_count(messages, message),
        _ => 0,
    }
}

/// With the uses of one instruction more, which runs so often at most.
fn add(uses: Uses, messages: &[CodeMessage], instr: Instr, weight: u64) -> Uses
    requires few { one_value messages.now instr ≤ 256 }
    requires weight { weight ≤ 16000000 }
    requires sends { uses.sends ≤ 16000000 }
    requires values { uses.values ≤ 4096000000 }
    requires choices { uses.choices ≤ 16000000 }
    ensures sends { result.sends ≡ uses.sends + spec.one_send instr * weight }
    ensures values { result.values ≡ uses.values + one_value messages.now instr * weight }
    ensures choices { result.choices ≡ uses.choices + spec.one_choice instr * weight }
{
    Uses {
        sends: uses.sends + send_count(instr) * weight,
        values: uses.values + value_count(messages, instr) * weight,
        choices: uses.choices + choice_count(instr) * weight,
    }
}

/// What a part sends and chooses at most. One pass serves, since a loop's count goes into the weight
/// at its beginning and out at its end.
pub fn uses_of(messages: &[CodeMessage], instrs: &[Instr]) -> Uses
    requires whole { AreWhole instrs.now }
    requires cheap { spec.cost instrs.now ≤ 16000000 }
    requires few { list_all (λ m. at_most 256 m.fields) messages.now ≡ true }
    ensures { IsUse messages.now instrs.now result }
{
    let mut uses = Uses {
        sends: 0,
        values: 0,
        choices: 0,
    };
    let mut weight = 1;
    for at in 0..instrs.len() {
        let instr = instr_at(instrs, at);
        uses = add(uses, messages, instr, weight);
        weight = next_weight(instrs, at, instr, weight);
    }
    uses
}
