//! Uses of the names of messages, peers and timers.

ghost use Rattle.std.specs.Prelude.{◌≡◌, not, unsigned_abs};
ghost use Rattle.tap_base.specs.Offences.{Clears, Settles, where_};
ghost use Rattle.tap_types.specs.Scopes.{free_fields, message_in, named_in, process_in};
ghost use Rattle.tap_types.specs.StmtOffences.{choice_width, is_count, message_at, message_name, peer_offences, timer_name, value_count};
ghost use Rattle.tap_types.specs.Systems.{timer_in};
ghost use Rattle.tap_types.specs.inner.Typing.{IsListed, scope_of};

use crate::scope::Names;
use tap_base::{AstExpr, AstField, Ident, Place, Range, Refusal, RefusalCode, item};
use tap_names::{Named, refusal};

/// The most turns that a loop may make.
const MOST_TURNS: i64 = 65_536;

/// The most values that a choice may have.
const MOST_VALUES: i128 = 0x1_0000_0000;

/// The number of the message.
pub fn message_named(names: &Names, message: &Ident) -> Result<u32, Refusal>
    requires { IsListed names.now }
    ensures { let c = scope_of names.now in
        Settles (message_name c message.now) (message_in c message.now.text) result }
{
    match names.message(message.text.as_str()) {
        None => Err(refusal(RefusalCode::N1, message.place)),
        Some(number) => Ok(number),
    }
}

/// The number of the process, which is another one.
pub fn peer_named(names: &Names, peer: &Ident) -> Result<u32, Refusal>
    requires { IsListed names.now }
    ensures { let c = scope_of names.now in
        Settles (peer_offences c peer.now) (process_in c peer.now.text) result }
{
    match names.process(peer.text.as_str()) {
        None => Err(refusal(RefusalCode::N3, peer.place)),
        Some(number) => {
            if number == names.me {
                Err(refusal(RefusalCode::N3, peer.place))
            } else {
                Ok(number)
            }
        }
    }
}

/// The number of the timer.
pub fn timer_named(names: &Names, timer: &Ident) -> Result<u32, Refusal>
    ensures { let c = scope_of names.now in
        Settles (timer_name c timer.now) (timer_in c timer.now) result }
{
    match names.named(timer.text.as_str()) {
        None => Err(refusal(RefusalCode::N1, timer.place)),
        Some(Named::Timer(number)) => Ok(number),
        Some(_) => Err(refusal(RefusalCode::K1, timer.place)),
    }
}

/// Whether there are as many values as the message has free fields.
pub fn check_values(
    names: &Names,
    message: u32,
    place: Place,
    values: &[AstExpr],
) -> Result<(), Refusal>
    ensures { Clears (value_count place (message_at (scope_of names.now) (Some message)) values.now) result }
{
    let Some(message) = item(names.messages, message as usize) else {
        return Ok(());
    };
    if values.len() == free_fields(message.fields.as_slice()) {
        Ok(())
    } else {
        Err(refusal(RefusalCode::K2, place))
    }
}

fn free_fields(fields: &[AstField]) -> usize
    ensures { result ≡ free_fields fields.now }
{
    fields.iter().filter(|field| field.fixed.is_none()).count()
}

/// Whether a choice among the values of the range is not too wide.
pub fn check_width(range: Range, place: Place) -> Result<(), Refusal>
    ensures { Clears (choice_width place (Some range)) result }
{
    if i128::from(range.hi) - i128::from(range.lo) >= MOST_VALUES {
        Err(refusal(RefusalCode::X1, place))
    } else {
        Ok(())
    }
}

/// The count of a loop's turns.
pub fn count_of(count: i64, place: Place) -> Result<u32, Refusal>
    ensures { Settles (where_ (not (is_count count)) RefusalCode.X1 place) (Some (unsigned_abs count)) result }
{
    if 1 <= count && count <= MOST_TURNS {
        Ok(count as u32)
    } else {
        Err(refusal(RefusalCode::X1, place))
    }
}
