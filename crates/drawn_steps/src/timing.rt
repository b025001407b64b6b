//! The instructions that set timers.

ghost use Rattle.std.specs.Prelude.{◌≡◌, ◌<◌, ◌^◌, ℤ, length, slice_get, Some};
ghost use Rattle.tap_base.specs.Interval.{IsIn, delay_range};
ghost use Rattle.register_code.specs.declared.instr.Instr.TheVariants as instr;
ghost use Rattle.drawn_steps.specs.Timing.{IsDelay, SetsTimer};

use code_steps::Core;
use timer_core::Timers;

/// The delay that a register holds.
#[tactic(auto, using(crate::proofs::Timed::is_delay))]
fn delay(core: &Core, a: u32) -> u32
    requires there { a < length core.now.registers }
    requires within { (x : ℤ) → slice_get core.now.registers a ≡ Some x → IsIn x delay_range }
    ensures { IsDelay core.now a result }
{
    core.get(a as usize).unsigned_abs() as u32
}

/// A timer is armed with the delay that a register holds.
#[tactic(auto, using(crate::proofs::Timed::starts))]
pub fn start(core: &mut Core, timer: u32, a: u32, timers: &mut Timers)
    requires there { a < length core.old.registers }
    requires within { (x : ℤ) → slice_get core.old.registers a ≡ Some x → IsIn x delay_range }
    requires declared { timer < length timers.old.states }
    requires small { core.old.next < 2 ^ 63 }
    ensures { SetsTimer (instr.Start timer a) core.old core.new timers.old timers.new }
{
    timers.start(timer, delay(core, a));
    core.go(core.next() + 1);
}

/// A timer is turned off.
#[tactic(auto, using(crate::proofs::Timed::stops))]
pub fn stop(core: &mut Core, timer: u32, timers: &mut Timers)
    requires declared { timer < length timers.old.states }
    requires small { core.old.next < 2 ^ 63 }
    ensures { SetsTimer (instr.Stop timer) core.old core.new timers.old timers.new }
{
    timers.stop(timer);
    core.go(core.next() + 1);
}
