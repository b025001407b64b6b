//! What the definitions of lines promise by themselves.

ghost use Rattle.store_lines.specs.Laws.{InOrder, OneAnswer};

/// Of `Line`, `End` and `TooLong` exactly one is right for the bytes that are to come, and of lines one.
pub fn one_answer()
    ensures { OneAnswer }
{}

/// Lines that are given until the end are those of the text, in their order, and no others are.
pub fn in_order()
    ensures { InOrder }
{}
