//! Verified code can always come to its end.

ghost use Rattle.drawn_code.specs.Ending.{BodiesCanEnd, CodeCanEnd};

/// From each moment that fits, some choices lead a part of verified code to its end, and are all taken.
pub fn code_can_end()
    ensures { CodeCanEnd }
{}

/// From fitting values some choices lead each body to its end within its cost, and are all taken.
pub fn bodies_can_end()
    ensures { BodiesCanEnd }
{}
