//! What holds of values where intervals and indexes are right.

ghost use Rattle.sound_values.specs.Fields.{GivenFieldsFit, ReceivedFieldsFit};
ghost use Rattle.sound_values.specs.Sound.{ValuesAreSound};

/// Of a resolved expression that has an interval and whose indexes lie within their arrays: whatever
/// fitting cells, inputs and received values it reads, its value lies in its interval, and 64-bit
/// numbers compute it.
pub fn values_are_sound()
    ensures { ValuesAreSound }
{}

/// The values of a message are within what an action that receives it can read, and values that are
/// given for the free fields of a message are, with the fixed ones in their places, those of a
/// message.
pub fn fields_are_sound()
    ensures received { ReceivedFieldsFit }
    ensures given { GivenFieldsFit }
{}
