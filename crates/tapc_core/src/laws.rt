//! What the definitions of words promise by themselves.

ghost use Rattle.tapc_core.specs.Laws.{SettingIsSpelled};

/// A word is a setting of a command exactly where it spells that setting.
pub fn setting_is_spelled()
    ensures { SettingIsSpelled }
{}
