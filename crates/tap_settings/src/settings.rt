//! The setting that a word is.

ghost use Rattle.std.specs.Prelude.{MatchOption};
ghost use Rattle.tap_settings.specs.SettingText.{IsNoSetting, SpellsSetting, assignment_of};

use crate::integers::read_integer;
use crate::names::is_name;
use crate::splits::split_at_first;

/// A setting `P.X=INT`: the input X of the process P has this value.
#[derive(Clone, Copy, Debug, PartialEq, Eq)]
pub struct Setting<'a> {
    pub process: &'a str,
    pub input: &'a str,
    pub value: i64,
}

/// The setting that a word is; none exactly where it is none. P and X are a letter, then letters,
/// digits and `_`. INT is a number of the signed 64-bit range in decimal, without zeros in front, with
/// `-` before it where it is negative.
pub fn setting_of(word: &str) -> Option<Setting<'_>>
    ensures { MatchOption result (IsNoSetting word.now) (λ s. SpellsSetting word.now (assignment_of s)) }
{
    let Some((process, behind)) = split_at_first(word, '.') else {
        return None;
    };
    let Some((input, number)) = split_at_first(behind, '=') else {
        return None;
    };
    if !is_name(process) || !is_name(input) {
        return None;
    }
    let Some(value) = read_integer(number) else {
        return None;
    };
    Some(Setting {
        process,
        input,
        value,
    })
}
