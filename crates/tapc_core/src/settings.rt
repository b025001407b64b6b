//! The words that are settings.

ghost use Rattle.std.specs.Prelude.{◌≡◌, ◌++◌, IfOk, OnOk};
ghost use Rattle.std.specs.List.{list_all};
ghost use Rattle.tap_settings.specs.SettingText.{assignments_of};
ghost use Rattle.tapc_core.specs.SettingWords.{listed, setting_in, settings_among};
ghost use Rattle.tapc_core.specs.Words.{is_input_setting, is_setting};

use crate::seeds::seed_of;
use std::alloc::Global;
use tap_base::{List, NoMemory, Text};
use tap_settings::{Setting, setting_of};

/// Whether all words are settings: of an input, or of the seed.
pub fn are_settings(words: &[Text]) -> bool
    ensures { result ≡ list_all is_setting words.now }
{
    for word in words {
        if !is_setting(word.as_str()) {
            return false;
        }
    }
    true
}

fn is_setting(word: &str) -> bool
    ensures { result ≡ is_setting word.now }
{
    is_input(word) || seed_of(word).is_some()
}

/// Whether all words are settings of inputs.
pub fn are_inputs(words: &[Text]) -> bool
    ensures { result ≡ list_all is_input_setting words.now }
{
    for word in words {
        if !is_input(word.as_str()) {
            return false;
        }
    }
    true
}

fn is_input(word: &str) -> bool
    ensures { result ≡ is_input_setting word.now }
{
    setting_of(word).is_some()
}

/// The settings of inputs among words.
pub fn settings_among<'a>(alloc: Global, words: &'a [Text]) -> Result<List<Setting<'a>>, NoMemory>
    ensures { IfOk result (λ settings. assignments_of settings ≡ settings_among words.now) }
{
    let mut settings = List::new(alloc);
    for word in words {
        push_setting(&mut settings, word)?;
    }
    Ok(settings)
}

/// Appends the setting that a word is, where it is one.
fn push_setting<'a>(settings: &mut List<Setting<'a>>, word: &'a Text) -> Result<(), NoMemory>
    ensures { OnOk result (assignments_of settings.new ≡ assignments_of settings.old ++ listed (setting_in word.now)) }
{
    match setting_of(word.as_str()) {
        Some(setting) => settings.push(setting),
        None => Ok(()),
    }
}
