//! What gives a body its choices, and a list of choices, which is taken from the front.

ghost use Rattle.std.specs.Prelude.{◌≡◌, ◌<◌, ◌^◌, ℤ, Bool, List, Option, IfOk, MatchOption, drop, length, map, pos};
ghost use Rattle.std.specs.List.{list_any};
ghost use Rattle.std.specs.Ordering.{int_eq};
ghost use Rattle.tap_base.specs.Lists.{Each};
ghost use Rattle.tap_base.specs.Ranges.{values_of};

use tap_base::{List, NoMemory, Range};

/// What gives a body its choices. A choice point has options, and is given one of them, or none.
pub trait Choices {
    /// The option that is given, and what is left.
    ghost takes: { List ℤ → Self → Option (ℤ × Self) };

    /// Whether a body may end here.
    ghost spent: { Self → Bool };

    /// Takes a value of a range.
    ///
    /// # Errors
    ///
    /// `NoMemory`: no more is promised of what is left.
    fn take_value(&mut self, range: Range) -> Result<Option<i64>, NoMemory>
        ensures { IfOk result (λ taken. MatchOption taken (takes (values_of range) self.old ≡ None)
            (λ x. takes (values_of range) self.old ≡ Some (x, self.new))) };

    /// Takes one of these numbers.
    ///
    /// # Errors
    ///
    /// `NoMemory`: no more is promised of what is left.
    fn take_number(&mut self, numbers: &[usize]) -> Result<Option<i64>, NoMemory>
        requires { Each (λ n. n < 2 ^ 63) numbers.now }
        ensures { IfOk result (λ taken. MatchOption taken (takes (map pos numbers.now) self.old ≡ None)
            (λ x. takes (map pos numbers.now) self.old ≡ Some (x, self.new))) };

    /// Whether a body may end here.
    fn is_spent(&self) -> bool
        ensures { result ≡ spent self.now };
}

/// The next choice is taken, where it is an option. All of them have to be taken.
impl Choices for List<i64> {
    ghost use Rattle.tap_exec.specs.Execution.{is_empty, takes};

    ghost takes = { takes };

    ghost spent = { is_empty };

    fn take_value(&mut self, range: Range) -> Result<Option<i64>, NoMemory> {
        let Some(x) = self.get(0).copied() else {
            return Ok(None);
        };
        if !is_value(range, x) {
            return Ok(None);
        }
        take_first(self);
        Ok(Some(x))
    }

    fn take_number(&mut self, numbers: &[usize]) -> Result<Option<i64>, NoMemory> {
        let Some(x) = self.get(0).copied() else {
            return Ok(None);
        };
        if !is_among(numbers, x) {
            return Ok(None);
        }
        take_first(self);
        Ok(Some(x))
    }

    fn is_spent(&self) -> bool {
        self.len() == 0
    }
}

/// The first choice is there no more.
fn take_first(choices: &mut List<i64>)
    requires { 0 < length choices.old }
    ensures { choices.new ≡ drop 1 choices.old }
{
    let _ = choices.remove(0);
}

#[tactic(auto, using(tap_base::proofs::RangeFacts::among_values))]
fn is_value(range: Range, x: i64) -> bool
    ensures { result ≡ list_any (int_eq x) (values_of range) }
{
    range.lo <= x && x <= range.hi
}

fn is_number(number: usize, x: i64) -> bool
    ensures { result ≡ int_eq x (pos number) }
{
    0 <= x && x as u64 == number as u64
}

fn is_among(numbers: &[usize], x: i64) -> bool
    ensures { result ≡ list_any (int_eq x) (map pos numbers.now) }
{
    for number in numbers {
        if is_number(*number, x) {
            return true;
        }
    }
    false
}
