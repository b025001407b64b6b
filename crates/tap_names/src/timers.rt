//! Timers that a process declares.

ghost use Rattle.std.specs.Prelude.{◌≡◌, ◌<◌, ◌++◌, false, nat_le, OnOk};
ghost use Rattle.tap_names.specs.Limits.{most_timers};
ghost use Rattle.tap_names.specs.NameOffences.{name_offences};
ghost use Rattle.tap_base.specs.Offences.{Clears, where_};
ghost use Rattle.tap_names.specs.Tables.{entries_of, is_among, names_in};
ghost use Rattle.tap_names.specs.inner.Declares.{DeclaresTimers};

use crate::fault::TypeFault;
use crate::limits::MOST_TIMERS;
use crate::named::Named;
use crate::naming::{check_count, check_new};
use crate::table::Table;
use std::alloc::Global;
use tap_base::{Ident, Refusal, RefusalCode};

/// The timers, behind the constants and the names of the table.
#[tactic(auto, using(crate::proofs::Faults::front, crate::proofs::Faults::back, crate::proofs::Faults::refused))]
pub fn declare_timers(
    alloc: Global,
    constants: &Table<Named>,
    table: &mut Table<Named>,
    timers: &[Ident],
) -> Result<(), TypeFault>
    ensures { DeclaresTimers (entries_of constants.now) timers.now (entries_of table.old) result (entries_of table.new) }
{
    'timers: for at in 0..timers.len() {
        let timer = &timers[at];
        check_timer(constants, table, at, timer)?;
        table.declare(alloc, timer.text.as_str(), Named::Timer(at as u32))?;
    }
    Ok(())
}

/// Whether a timer may stand behind so many, and behind the names of both tables.
#[tactic(auto, using(tap_base::proofs::LoopFacts::first_front, tap_base::proofs::LoopFacts::first_back))]
fn check_timer(
    constants: &Table<Named>,
    table: &Table<Named>,
    at: usize,
    timer: &Ident,
) -> Result<(), Refusal>
    ensures judged { Clears (name_offences (names_in (entries_of constants.now) ++ names_in (entries_of table.now)) timer.now ++ where_ (nat_le most_timers at) RefusalCode.X1 timer.now.place) result }
    ensures fresh { OnOk result (is_among timer.now.text (names_in (entries_of table.now)) ≡ false) }
    ensures few { OnOk result (at < most_timers) }
{
    check_new(constants, table, timer)?;
    check_count(at, MOST_TIMERS, timer.place)
}
