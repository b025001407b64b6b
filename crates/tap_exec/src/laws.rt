//! What is proved of statements, beside what the code does.

ghost use Rattle.tap_exec.specs.Front.{ChoicesAreFront};

/// Statements take their choices from the front.
pub fn choices_are_front()
    ensures { ChoicesAreFront }
{}
