//! The order in which broken rules stand.

ghost use Rattle.action_code.specs.Order.{BreaksAreInOrder};

/// All broken rules, of which the verifier tells the first, stand by process, action, part, instruction
/// and rule, and the rules on a whole part behind all others of that part.
pub fn breaks_are_in_order()
    ensures { BreaksAreInOrder }
{}
