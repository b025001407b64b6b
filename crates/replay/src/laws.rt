//! What the definitions of traces promise by themselves.

ghost use Rattle.replay.specs.Laws.{OneVerdict};

/// Of the answers that say something of a text at most one is right: that it is a trace, that the line
/// of a number is bad, or that no run goes on with the line of a number.
pub fn one_verdict()
    ensures { OneVerdict }
{}
