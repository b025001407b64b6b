//! The lines of what is left of a store.

ghost use Rattle.std.specs.Prelude.{◌≡◌, ℕ, List, None, IfOk, IfSome};
ghost use Rattle.store_lines.specs.Lines.{HasLinesCause, Leaves, Tells, answer_to, coming, no_lines, stopped_by};

use crate::answer::{NextLine, Stop};
use crate::held::Held;
use crate::line::read_line;
use link_trait::Store;
use std::alloc::Global;
use std::marker::Model;
use tap_base::NoMemory;

/// The lines of what is left of a store, one after another. A line ends at a line feed; a last one without it
/// counts where it is not empty. No more than one line and one piece is kept.
#[derive(Debug, Drop)]
pub struct Lines {
    held: Held,
    line: Vec<u8>,
    number: u64,
    stopped: Option<Stop>,
}

impl Model for Lines {
    ghost use Rattle.store_lines.specs.Lines.{LinesValue};

    ghost Value = { LinesValue };

    ghost view = { λ l. record { held = l.held; line = l.line.items; number = l.number; stopped = l.stopped } };
}

impl Lines {
    /// Before the first line.
    pub fn new(alloc: Global) -> Result<Lines, NoMemory>
        ensures { IfOk result (λ l. l ≡ no_lines) }
    {
        Ok(Lines {
            held: Held::new(alloc)?,
            line: Vec::new(alloc),
            number: 0,
            stopped: None,
        })
    }

    /// Reads the next line of the store, which is the same one in each call.
    ///
    /// `End` comes exactly where no byte is left, and `TooLong` exactly where the line has more than
    /// 33,554,432 bytes. `ReadFault` comes only where the store's count of faults rose; each line that was
    /// read whole was given before it. After `TooLong`, `ReadFault` or `NoMemory` every later call answers
    /// the same again, without a call of the store.
    pub fn next<S: Store>(&mut self, store: &mut S) -> NextLine
        ensures again { IfSome self.old.stopped (λ why. (result ≡ answer_to why) × (self.new ≡ self.old) × (store.new ≡ store.old)) }
        ensures leaves { self.old.stopped ≡ None → Leaves self.old result self.new }
        ensures tells { self.old.stopped ≡ None → IfSome (coming self.old.held (S.left store.old)) (λ bytes. Tells bytes result self.new.line (coming self.new.held (S.left store.new))) }
        ensures stays { (n : List ℕ) → S.contents store.new n ≡ S.contents store.old n }
        ensures cause { self.old.stopped ≡ None → HasLinesCause (S.faults store.old) (S.faults store.new) result }
    {
        if let Some(why) = self.stopped {
            return why.answer();
        }
        match read_line(&mut self.held, &mut self.line, store) {
            Ok(true) => {
                self.number = self.number.saturating_add(1);
                NextLine::Line
            }
            Ok(false) => NextLine::End,
            Err(why) => self.stop(why),
        }
    }

    /// The line that was given last, without its line feed; empty before the first, and after `TooLong`,
    /// `ReadFault` and `NoMemory`.
    pub fn line(&self) -> &[u8]
        ensures { result.now ≡ self.now.line }
    {
        self.line.as_slice()
    }

    /// The number of the line that was given last, counted from 1; 0 before the first. It stays at 2^64 - 1
    /// once it is there.
    pub fn number(&self) -> u64
        ensures { result ≡ self.now.number }
    {
        self.number
    }

    /// Gives no further line.
    fn stop(&mut self, why: Stop) -> NextLine
        ensures value { self.new ≡ stopped_by why self.old }
        ensures answer { result ≡ answer_to why }
    {
        self.held.keep_last(0);
        self.line.clear();
        self.stopped = Some(why);
        why.answer()
    }
}
