//! What a run begins with: a system, and its inputs.

ghost use Rattle.std.specs.Prelude.{◌≡◌, ℕ, List, Err, IfOk, IfSome, OnOk};
ghost use Rattle.tap_base.specs.Resolved.{IsResolved};
ghost use Rattle.tap_base.specs.Wires.{wire_of};
ghost use Rattle.abstract_run.specs.Fits.{InputsFit};
ghost use Rattle.tap_exec.specs.Semantics.{semantics_of};
ghost use Rattle.replay.specs.Grammar.{TellsNames};
ghost use Rattle.tap_front.specs.Offences.{Offends};
ghost use Rattle.tap_settings.specs.GivenInputs.{inputs_given};
ghost use Rattle.tap_settings.specs.Offences.{settings_offences};
ghost use Rattle.tap_settings.specs.Refusals.{Judges};
ghost use Rattle.link_trait.specs.Outside.{IsTold};
ghost use Rattle.tapc_core.specs.Reading.{LeavesText};
ghost use Rattle.tapc_core.specs.SettingWords.{settings_among};
ghost use Rattle.tapc_core.specs.Run.{SetsUp};
ghost use Rattle.tapc_core.specs.commands.Settings.{Missets};
ghost use Rattle.tapc_core.specs.inner.StartFaults.{HasStartCause, WasBegun, WasRefused};
ghost use Rattle.exact_choice.specs.Runnable.{IsRunnable};
ghost use Rattle.world_run.specs.Layouts.{HasLayout};

use crate::files::{FileFault, read_to_run};
use crate::settings::settings_among;
use link_trait::Store;
use std::alloc::Global;
use tap_base::{Inputs, System, Text};
use tap_front::Offence;
use tap_settings::{SettingRefusal, SettingsFault, inputs_of};

/// What a run begins with.
#[derive(Debug, Drop)]
pub struct Start {
    pub system: System,
    pub inputs: Inputs,
}

/// Why a run does not begin.
#[derive(Debug, Drop)]
pub enum StartFault {
    /// There is nothing to work on.
    File(FileFault),
    /// The settings have this first offence.
    Misset(SettingRefusal),
}

impl From<FileFault> for StartFault {
    ghost use Rattle.std.specs.Prelude.{◌≡◌};
    ghost use Rattle.tapc_core.specs.declared.start.StartFault.TheVariants as fault;

    ghost from_gives = { λ e given. given ≡ fault.File e };

    fn from(e: FileFault) -> StartFault {
        StartFault::File(e)
    }
}

impl From<SettingsFault> for StartFault {
    ghost use Rattle.std.specs.Prelude.{◌≡◌};
    ghost use Rattle.tapc_core.specs.inner.StartFaults.{unset};

    ghost from_gives = { λ e given. given ≡ unset e };

    fn from(e: SettingsFault) -> StartFault {
        match e {
            SettingsFault::Refused(refusal) => StartFault::Misset(refusal),
            SettingsFault::NoMemory => StartFault::File(FileFault::NoMemory),
        }
    }
}

/// Reads the text of a system to its end, and judges the settings.
pub fn begin<S: Store>(
    alloc: Global,
    system: &str,
    settings: &[Text],
    store: &mut S,
) -> Result<Start, StartFault>
    ensures runnable { IfOk result (λ r. IsRunnable r.system) }
    ensures resolved { IfOk result (λ r. IsResolved r.system) }
    ensures wire { IfOk result (λ r. HasLayout (wire_of r.system)) }
    ensures fit { IfOk result (λ r. InputsFit (semantics_of r.system) r.inputs) }
    ensures names { IfOk result (λ r. TellsNames (semantics_of r.system)) }
    ensures set_up { IfOk result (λ r. SetsUp (S.contents store.old system.now) (settings_among settings.now) r.system r.inputs) }
    ensures refused { (o : Offence) → result ≡ Err (StartFault.File (FileFault.Refused o)) → IfSome (S.contents store.old system.now) (λ text. Offends text o) }
    ensures misset { (r : SettingRefusal) → result ≡ Err (StartFault.Misset r) → Missets (S.contents store.old system.now) (settings_among settings.now) r }
    ensures left { WasRefused result → LeavesText (S.contents store.old system.now) (S.left store.new) }
    ensures found { WasBegun result → IsTold (S.left store.old) → IsTold (S.contents store.old system.now) }
    ensures told { OnOk result (IsTold (S.left store.old) → IsTold (S.left store.new)) }
    ensures stays { (n : List ℕ) → S.contents store.new n ≡ S.contents store.old n }
    ensures cause { HasStartCause (S.faults store.old) (S.faults store.new) result }
{
    let system = read_to_run(alloc, system, store)?;
    let inputs = given_inputs(alloc, &system, settings)?;
    Ok(Start { system, inputs })
}

/// The inputs that the settings among words give a system, or their first offence.
fn given_inputs(alloc: Global, system: &System, words: &[Text]) -> Result<Inputs, SettingsFault>
    ensures judged { Judges (settings_offences system.now (settings_among words.now)) (inputs_given system.now (settings_among words.now)) result }
    ensures fit { IfOk result (InputsFit (semantics_of system.now)) }
{
    let settings = settings_among(alloc, words)?;
    inputs_of(alloc, system, settings.as_slice())
}
