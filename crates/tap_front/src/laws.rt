//! What the definitions of texts promise by themselves.

ghost use Rattle.tap_front.specs.Laws.{AcceptedIsChecked, AcceptedIsSafe, AcceptedRuns, AcceptedSpellingsMean, NamesTellApart, NeverRefused, OneOffence, OneSystemOfText, OneTreeOfText, PrintedAgain, ResolvedIsWhole, VarNamesTellApart};

/// A text that is read as a tree has no offence that keeps it from that, and one that is accepted has none.
pub fn never_refused()
    ensures { NeverRefused }
{}

/// First offences of one text have one code, and but for S1 they are one.
pub fn one_offence()
    ensures { OneOffence }
{}

/// A text is read as at most one tree.
pub fn one_tree_of_text()
    ensures { OneTreeOfText }
{}

/// What is printed of a text is read as the same tree, places aside, and as no other, where it is no longer than
/// a text may be; and it is printed as it is.
pub fn printed_again()
    ensures { PrintedAgain }
{}

/// In a system that a text is accepted as, the names of processes have no space and no line feed, and no two are
/// one.
pub fn names_tell_apart()
    ensures { NamesTellApart }
{}

/// In a system that a text is accepted as, the names of the variables of a process have no space and no line feed, and
/// no two are one.
pub fn var_names_tell_apart()
    ensures { VarNamesTellApart }
{}

/// A system that a text is accepted as is checked: it is resolved, and has no offence of widths, costs and sends.
pub fn accepted_is_checked()
    ensures { AcceptedIsChecked }
{}

/// A system that a text is accepted as is safe: it begins within its ranges, its bodies keep them, and 64-bit numbers
/// compute it.
pub fn accepted_is_safe()
    ensures { AcceptedIsSafe }
{}

/// A system that a text is accepted as can be run.
pub fn accepted_runs()
    ensures { AcceptedRuns }
{}

/// In a system that a text is accepted as, the spelling of a message that is received means this message with its values,
/// and nothing else.
pub fn accepted_spellings_mean()
    ensures { AcceptedSpellingsMean }
{}

/// A text is accepted as at most one system.
pub fn one_system_of_text()
    ensures { OneSystemOfText }
{}

/// What the tree of a text resolves to is a resolved system: all that it names by number is there, its truths are
/// truths, and it keeps the limits.
pub fn resolved_is_whole()
    ensures { ResolvedIsWhole }
{}
