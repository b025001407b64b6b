//! What the definitions say of small trees.

ghost use Rattle.tap_names.specs.WorkedDeclarations.{BoundsInOrder, CellsPassLast, FixedValueTooLarge, InputIsNoBound, LengthBeforeTwice, NoCells, ReversedRange, TwiceDeclared};

/// The offences of declarations, worked on small ones.
pub fn declarations_are_worked()
    ensures reversed { ReversedRange }
    ensures twice { TwiceDeclared }
    ensures bounds { BoundsInOrder }
    ensures cells { NoCells }
    ensures long { LengthBeforeTwice }
    ensures last { CellsPassLast }
    ensures fixed { FixedValueTooLarge }
    ensures constant { InputIsNoBound }
{}
