//! Laws of the meaning of bytes.

ghost use Rattle.byte_meaning.specs.Laws.{MeaningIsMeant, SpellingsAreRead, SystemsMean, SystemsSayTheSame, WiresMean, WiresSayTheSame};

/// Where messages are told apart, the spelling of a message that is received means this message with
/// its values, and bytes mean one thing.
pub fn spellings_mean()
    ensures systems { SystemsMean }
    ensures wires { WiresMean }
{}

/// What `meaning` gives is what bytes mean. Where messages are told apart, it gives of a spelling its
/// message.
pub fn meaning_is_meant()
    ensures meant { MeaningIsMeant }
    ensures read { SpellingsAreRead }
{}

/// A system, what a run asks of it, and its wire say the same of who receives what.
pub fn receivers_are_the_same()
    ensures systems { SystemsSayTheSame }
    ensures wires { WiresSayTheSame }
{}
