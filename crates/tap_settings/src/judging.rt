//! From settings to the inputs that they give, or to their first offence.

ghost use Rattle.std.specs.Prelude.{IfOk};
ghost use Rattle.abstract_run.specs.Fits.{InputsFit};
ghost use Rattle.tap_exec.specs.Semantics.{semantics_of};
ghost use Rattle.tap_settings.specs.GivenInputs.{inputs_given};
ghost use Rattle.tap_settings.specs.Offences.{settings_offences};
ghost use Rattle.tap_settings.specs.Refusals.{Judges};
ghost use Rattle.tap_settings.specs.SettingText.{assignments_of};

use crate::filling::values_of;
use crate::giving::give_all;
use crate::refusals::SettingsFault;
use crate::settings::Setting;
use crate::table::without_values;
use std::alloc::Global;
use tap_base::{Inputs, System};

/// The inputs that settings give, one list for each process; each is within its range.
///
/// # Errors
///
/// `Refused` with the first offence. The settings are judged in their order: I1 where the system
/// declares no such input, else I2 where a setting before it gives the input, else I4 where the value is
/// outside of the input's range. Then comes I3 for the first input that no setting gives. `NoMemory`
/// where memory was refused.
pub fn inputs_of(
    alloc: Global,
    system: &System,
    settings: &[Setting],
) -> Result<Inputs, SettingsFault>
    ensures judged { Judges (settings_offences system.now (assignments_of settings.now)) (inputs_given system.now (assignments_of settings.now)) result }
    ensures fits { IfOk result (InputsFit (semantics_of system.now)) }
{
    let processes = system.processes.as_slice();
    let mut rows = without_values(alloc, processes)?;
    give_all(alloc, processes, settings, &mut rows)?;
    let of = values_of(alloc, processes, rows.as_slice())?;
    Ok(Inputs { of })
}
