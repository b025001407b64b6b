//! What holds of every resolved system that is judged right.

ghost use Rattle.sound_bodies.specs.Bodies.{BodiesAreSound};
ghost use Rattle.sound_bodies.specs.GoOn.{BodiesGoOn};

/// Of a resolved system whose values are judged right and whose actions make at most 64 sends: it
/// begins within its ranges, its bodies keep them, and 64-bit numbers compute it.
pub fn bodies_are_sound()
    ensures { BodiesAreSound }
{}

/// Each body of such a system comes to its end by some choices, whatever it fittingly begins with, and
/// leaves whatever choices come behind them.
pub fn bodies_go_on()
    ensures { BodiesGoOn }
{}
