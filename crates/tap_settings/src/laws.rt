//! What the definitions of settings promise by themselves.

ghost use Rattle.tap_settings.specs.Laws.{GivenInputsFit, GivenOrRefused, OneSetting};

/// A word is at most one setting.
pub fn one_setting()
    ensures { OneSetting }
{}

/// Settings have no offence exactly where they give inputs.
pub fn given_or_refused()
    ensures { GivenOrRefused }
{}

/// The inputs that settings give are as many as the system declares, each within its range.
pub fn given_inputs_fit()
    ensures { GivenInputsFit }
{}
