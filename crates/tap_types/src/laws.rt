//! Laws of trees and the systems that they name, and what the definitions say of small parts of trees.

ghost use Rattle.tap_types.specs.Laws.{KeepsNames, NamesOne};
ghost use Rattle.tap_types.specs.TruthRanges.{TestsAreTruths};
ghost use Rattle.tap_types.specs.Wholeness.{ResolvesWhole};
ghost use Rattle.tap_types.specs.WorkedUses.{NothingReceived, OperandsFirst, PartsOfAReceive, PartsOfASend, PartsOfAnAssignment, SendsAfterUses, UnlikeOperands};

/// The messages and processes of a system have the names that its tree gives them.
pub fn keeps_names()
    ensures { KeepsNames }
{}

/// A tree without an offence names a system.
pub fn names_one()
    ensures { NamesOne }
{}

/// What a tree without an offence names is a resolved system.
pub fn resolves_whole()
    ensures { ResolvesWhole }
{}

/// A test has no value but 0 and 1.
pub fn tests_are_truths()
    ensures { TestsAreTruths }
{}

/// The offences of uses, worked on small ones.
pub fn uses_are_worked()
    ensures send { PartsOfASend }
    ensures receive { PartsOfAReceive }
    ensures operands { OperandsFirst }
    ensures unlike { UnlikeOperands }
    ensures nothing { NothingReceived }
    ensures assignment { PartsOfAnAssignment }
    ensures last { SendsAfterUses }
{}
