//! The definitions worked on small cases.

ghost use Rattle.byte_meaning.specs.Worked.{ByFixedBit, ByLength, ByPadding, DataIsSpelled, FixedCounts, KindsAreRead, LengthCounts, NotByFreeBits, OneIsRead, PaddingCounts, ReceiverCounts, ZeroIsRead};

/// What bytes mean.
pub fn meanings_are_worked()
    ensures one { OneIsRead }
    ensures zero { ZeroIsRead }
    ensures padding { PaddingCounts }
    ensures length { LengthCounts }
    ensures spelled { DataIsSpelled }
    ensures kinds { KindsAreRead }
    ensures fixed { FixedCounts }
    ensures receiver { ReceiverCounts }
{}

/// Which messages are told apart.
pub fn patterns_are_worked()
    ensures length { ByLength }
    ensures fixed { ByFixedBit }
    ensures padding { ByPadding }
    ensures free { NotByFreeBits }
{}
