//! Settings, judged in their order and put into a table.

ghost use Rattle.std.specs.Prelude.{◌≡◌, ◌<◌, [], length, slice_get, List, Some};
ghost use Rattle.tap_base.specs.Ranges.{is_within};
ghost use Rattle.tap_settings.specs.SettingText.{Assignment, assignment_of, assignments_of};
ghost use Rattle.tap_settings.specs.inner.Giving.{Gives, GivesAll};
ghost use Rattle.tap_settings.specs.inner.Table.{HasPlaces, Holds};

use crate::refusals::{SettingCode, SettingsFault, refused};
use crate::settings::Setting;
use crate::spots::spot_of;
use crate::table::{Rows, held_at, hold};
use std::alloc::Global;
use tap_base::{Process, Range};

/// Puts the values of settings into a table without a value, up to the first offence.
pub fn give_all(
    alloc: Global,
    processes: &[Process],
    settings: &[Setting],
    rows: &mut Rows,
) -> Result<(), SettingsFault>
    requires places { HasPlaces processes.now rows.old }
    requires empty { Holds processes.now [] rows.old }
    ensures { GivesAll processes.now (assignments_of settings.now) rows.new result }
{
    'settings: for at in 0..settings.len() {
        give_at(alloc, processes, settings, at, rows)?;
    }
    Ok(())
}

/// Puts the value of the setting numbered `at` into a table that holds the values of those before
/// it.
fn give_at(
    alloc: Global,
    processes: &[Process],
    settings: &[Setting],
    at: usize,
    rows: &mut Rows,
) -> Result<(), SettingsFault>
    requires within { at < length settings.now }
    requires places { HasPlaces processes.now rows.old }
    ensures places { HasPlaces processes.now rows.new }
    ensures given { (before : List Assignment) (s : _) → slice_get settings.now at ≡ Some s → Holds processes.now before rows.old → Gives processes.now before (assignment_of s) rows.new result }
{
    give(alloc, processes, &settings[at], rows)
}

/// The same of a setting, wherever it stands.
fn give(
    alloc: Global,
    processes: &[Process],
    setting: &Setting,
    rows: &mut Rows,
) -> Result<(), SettingsFault>
    requires { HasPlaces processes.now rows.old }
    ensures places { HasPlaces processes.now rows.new }
    ensures given { (before : List Assignment) → Holds processes.now before rows.old → Gives processes.now before (assignment_of setting.now) rows.new result }
{
    let Some(spot) = spot_of(processes, setting.process, setting.input) else {
        return Err(refused(alloc, SettingCode::I1, setting.process, setting.input));
    };
    if held_at(rows.as_slice(), spot.process, spot.input).is_some() {
        return Err(refused(alloc, SettingCode::I2, setting.process, setting.input));
    }
    if !is_within(spot.range, setting.value) {
        return Err(refused(alloc, SettingCode::I4, setting.process, setting.input));
    }
    hold(rows, spot.process, spot.input, setting.value);
    Ok(())
}

fn is_within(range: Range, value: i64) -> bool
    ensures { result ≡ is_within range value }
{
    range.lo <= value && value <= range.hi
}
