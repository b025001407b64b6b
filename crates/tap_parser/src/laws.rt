//! What the grammar of whole texts promises by itself.

ghost use Rattle.tap_parser.specs.Systems.{OneText, OneTextEnd, OneTextFront};

/// Tokens spell at most one tree.
pub fn one_text()
    ensures { OneText }
{}

/// Where the place of S1 is a token, no tokens that agree up to and with it spell a tree.
pub fn one_text_front()
    ensures { OneTextFront }
{}

/// Tokens that are a tree have no offence, and those with an offence have one of one code; but for S1 it
/// stands at one place.
pub fn one_text_end()
    ensures { OneTextEnd }
{}
