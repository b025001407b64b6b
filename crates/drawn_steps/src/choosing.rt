//! The instructions that choose.

ghost use Rattle.std.specs.Prelude.{◌<◌, ◌≤ℤ◌, ◌^◌, length};
ghost use Rattle.tap_base.specs.Interval.{from_to};
ghost use Rattle.tap_base.specs.Ranges.{values_of};
ghost use Rattle.drawn_steps.specs.Drawing.{TakesOption};

use crate::outbox::Outbox;
use code_steps::Core;
use drawn_choices::draw_value;
use rand_pcg::Lcg64Xsh32;
use tap_base::Range;

/// The next word takes a value from `lo` to `hi`.
pub fn choose(
    core: &mut Core,
    r: u32,
    lo: i64,
    hi: i64,
    generator: &mut Lcg64Xsh32,
    out: &mut Outbox,
)
    requires there { r < length core.old.registers }
    requires some { lo ≤ℤ hi }
    requires small { core.old.next < 2 ^ 63 }
    requires room { length out.old.chosen < out.old.choices_room }
    ensures { TakesOption (values_of (from_to lo hi)) r core.old core.new out.old out.new generator.old generator.new }
{
    let x = draw_value(Range { lo, hi }, generator);
    out.note(x);
    core.put(r as usize, x);
}
