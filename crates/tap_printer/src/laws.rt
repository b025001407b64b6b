//! What the definition of canonical texts promises by itself.

ghost use Rattle.tap_printer.specs.CanonicalLaws.{Fewest, LimitsKept, ReadAgain, ReadAgainOnly, SpelledAgain, TokensAgain};
ghost use Rattle.tap_printer.specs.WorkedCanonical.{ChoiceJoints, IndexJoints, LeftDropped, LinesOfAProcess, MinusBehindMinus, MinusTakesAnAtom, NoLeadingZeros, NotBelowARelation, NotOfARelation, PartJoints, RelationOfARelation, RightKept};

/// Tokens that are the canonical ones of a tree that some tokens spell spell that tree again, places
/// aside.
pub fn spelled_again()
    ensures { SpelledAgain }
{}

/// They keep the limits on brackets and on nodes, where those tokens do.
pub fn limits_kept()
    ensures { LimitsKept }
{}

/// No tokens of a text that spell the tree, places aside, are fewer than the canonical ones.
pub fn fewest()
    ensures { Fewest }
{}

/// The tokens of the canonical text of a tree that a text spells are the canonical ones.
pub fn tokens_again()
    ensures { TokensAgain }
{}

/// The canonical text of a tree that a text is, within the limits, is that tree again, places aside, and
/// is its own canonical text; and it is no other.
pub fn read_again()
    ensures some { ReadAgain }
    ensures only { ReadAgainOnly }
{}

/// The definition, worked on small trees.
pub fn canonical_texts_are_worked()
    ensures right { RightKept }
    ensures left { LeftDropped }
    ensures minus { MinusTakesAnAtom }
    ensures minus_behind_minus { MinusBehindMinus }
    ensures not_below { NotBelowARelation }
    ensures not_of { NotOfARelation }
    ensures relation { RelationOfARelation }
    ensures choice { ChoiceJoints }
    ensures index { IndexJoints }
    ensures part { PartJoints }
    ensures number { NoLeadingZeros }
    ensures lines { LinesOfAProcess }
{}
