//! A generator as what gives a body its choices.

use crate::draws::{draw_number, draw_value};
use rand_pcg::Lcg64Xsh32;
use tap_base::{List, NoMemory, Range};
use tap_exec::Choices;

/// A generator that gives a body its choices, and the choices that it gave, in order.
#[derive(Debug, Drop)]
pub struct Drawing {
    pub generator: Lcg64Xsh32,
    pub taken: List<i64>,
}

/// The next word takes one of the options. A body may end anywhere.
impl Choices for Drawing {
    ghost use Rattle.drawn_choices.specs.Drawing.{drawing, may_end};

    ghost takes = { drawing };

    ghost spent = { may_end };

    fn take_value(&mut self, range: Range) -> Result<Option<i64>, NoMemory> {
        if range.hi < range.lo {
            return Ok(None);
        }
        let x = draw_value(range, &mut self.generator);
        self.taken.push(x)?;
        Ok(Some(x))
    }

    fn take_number(&mut self, numbers: &[usize]) -> Result<Option<i64>, NoMemory> {
        if numbers.is_empty() {
            return Ok(None);
        }
        let x = draw_number(numbers, &mut self.generator) as i64;
        self.taken.push(x)?;
        Ok(Some(x))
    }

    fn is_spent(&self) -> bool {
        true
    }
}
