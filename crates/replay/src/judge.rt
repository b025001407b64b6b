//! One line of a trace after another is judged.

ghost use Rattle.std.specs.Prelude.{◌≡◌, ◌↔◌, ◌≤◌, ◌∷◌, ◌++◌, [], ℕ, List, IfOk, IsTrue, OnOk, Some, length};
ghost use Rattle.abstract_run.specs.Fits.{Fits, InputsFit};
ghost use Rattle.abstract_run.specs.Opening.{opening_state};
ghost use Rattle.run_text.specs.TraceText.{label_line, names_in};
ghost use Rattle.trace_entries.specs.Entries.{HasLabelLine, IsLineOfEntry};
ghost use Rattle.replay.specs.Stages.{HasEnded, IsReady, Stage, Takes, first_stage};
ghost use Rattle.replay.specs.inner.Judging.{IsGiven, said_by};
ghost use Rattle.replay.specs.Grammar.{names_told};
ghost use Rattle.replay.specs.inner.Passing.{Begins, IsNotDue, IsNotLast, Passes};

use crate::due::{behind, may_be_last, went_out, write_last, write_sends};
use crate::given::Given;
use crate::passed::{Passed, Refusal};
use abstract_run::{Label, State, StepFault, init, step};
use run_text::LineFault;
use std::marker::Model;
use tap_base::{Inputs, NoMemory};
use trace_entries::{Entry, read_entry};

/// How far a trace is judged. Contracts see it as the state behind its labels so far, the text of the
/// lines that have to come next, and whether those are its last ones.
#[derive(Debug, Drop)]
pub struct Judge {
    state: State,
    /// The lines that have to come next, from the place `at` on.
    due: String,
    at: usize,
    closing: bool,
}

impl Model for Judge {
    ghost use Rattle.std.specs.Prelude.{◌≤◌, drop, length, string_bytes};
    ghost use Rattle.replay.specs.Stages.{Stage};

    ghost Value = { Stage };

    ghost view = { λ j. record { state = j.state; due = drop j.at (string_bytes j.due); closing = j.closing } };

    ghost invariant = { λ j. j.at ≤ length (string_bytes j.due) };
}

impl Judge {
    /// Before the first line: the system stands in its opening state.
    pub fn new(given: &Given<'_>, inputs: &Inputs) -> Result<Judge, NoMemory>
        requires given { IsGiven given.now }
        requires inputs { InputsFit (said_by given.now) inputs.now }
        ensures first { IfOk result (λ j. j ≡ first_stage (opening_state (said_by given.now) inputs.now)) }
        ensures fits { IfOk result (λ j. Fits (said_by given.now) j.state) }
    {
        Ok(Judge {
            state: init(given.alloc, given.system, inputs)?,
            due: String::new(given.alloc),
            at: 0,
            closing: false,
        })
    }

    /// The state behind the labels so far.
    pub fn state(&self) -> &State
        ensures { result.now ≡ self.now.state }
    {
        &self.state
    }

    /// Whether the end was the last line.
    pub fn has_ended(&self) -> bool
        ensures { IsTrue result ↔ HasEnded self.now }
    {
        self.closing && self.left().is_empty()
    }

    /// Judges the next line, which has no line feed.
    ///
    /// # Errors
    ///
    /// `BadLine` exactly where the line is in no grammar, or the end has come. `NotARun` exactly where it
    /// is another line that no run goes on with. After these all is as it was. After `NoMemory` nothing
    /// is said of what comes next.
    pub fn line(&mut self, given: &Given<'_>, line: &[u8]) -> Result<Passed, Refusal>
        requires given { IsGiven given.now }
        requires fits { Fits (said_by given.now) self.old.state }
        ensures takes { Takes (said_by given.now) self.old line.now result self.new }
        ensures fits { OnOk result (Fits (said_by given.now) self.new.state) }
    {
        if self.pass_due(line) {
            return Ok(Passed::Due);
        }
        if self.has_ended() {
            return Err(Refusal::BadLine);
        }
        if self.begin_last(given, line)? {
            return Ok(Passed::Due);
        }
        match read_entry(given.alloc, line, given.names) {
            Ok(entry) => self.take(given, line, &entry),
            Err(LineFault::BadLine) => Err(Refusal::BadLine),
            Err(LineFault::NoMemory) => Err(Refusal::NoMemory),
        }
    }

    /// The text of the lines that have to come next.
    fn left(&self) -> &[u8]
        ensures { result.now ≡ self.now.due }
    {
        &self.due.as_bytes()[self.at..]
    }

    /// Whether nothing is due, so that a label may come, or the last lines.
    fn is_ready(&self) -> bool
        ensures { IsTrue result ↔ IsReady self.now }
    {
        !self.closing && self.left().is_empty()
    }

    /// Passes the line where it is the one that is due, and says whether it is.
    fn pass_due(&mut self, line: &[u8]) -> bool
        ensures { Passes self.old line.now result self.new }
    {
        if behind(self.left(), line).is_none() {
            return false;
        }
        self.at += line.len() + 1;
        true
    }

    /// Takes the line as the first of the last lines where it is that, and says whether it is.
    fn begin_last(&mut self, given: &Given<'_>, line: &[u8]) -> Result<bool, NoMemory>
        requires given { IsGiven given.now }
        ensures begins { IfOk result (λ done. Begins (said_by given.now) self.old line.now done self.new) }
        ensures state { self.new.state ≡ self.old.state }
    {
        if !may_be_last(line) || !self.is_ready() || self.state.falling.is_some() {
            return Ok(false);
        }
        let mut last = String::new(given.alloc);
        write_last(&mut last, given, &self.state)?;
        if behind(last.as_bytes(), line).is_none() {
            return Ok(false);
        }
        self.due = last;
        self.at = line.len() + 1;
        self.closing = true;
        Ok(true)
    }

    /// Judges a line that is neither due nor the first of the last lines, by what it says.
    fn take(&mut self, given: &Given<'_>, line: &[u8], entry: &Entry) -> Result<Passed, Refusal>
        requires given { IsGiven given.now }
        requires fits { Fits (said_by given.now) self.old.state }
        requires read { IsLineOfEntry (names_told (said_by given.now)) line.now entry.now }
        requires not_due { IsNotDue self.old line.now }
        requires not_last { IsNotLast (said_by given.now) self.old line.now }
        requires not_ended { HasEnded self.old → ⊥ }
        ensures takes { Takes (said_by given.now) self.old line.now result self.new }
        ensures fits { OnOk result (Fits (said_by given.now) self.new.state) }
    {
        match entry {
            Entry::Got { .. } | Entry::Strangers { .. } => Err(Refusal::BadLine),
            Entry::Label(label) => self.take_label(given, label),
            Entry::Sent { .. } | Entry::Var { .. } | Entry::End => Err(Refusal::NotARun),
        }
    }

    /// Does the step of a label where it is possible.
    fn take_label(&mut self, given: &Given<'_>, label: &Label) -> Result<Passed, Refusal>
        requires given { IsGiven given.now }
        requires fits { Fits (said_by given.now) self.old.state }
        requires has_line { HasLabelLine (length (names_in (said_by given.now))) label.now }
        requires not_last { IsNotLast (said_by given.now) self.old (label_line (names_in (said_by given.now)) label.now) }
        requires not_due { IsNotDue self.old (label_line (names_in (said_by given.now)) label.now) }
        requires not_ended { HasEnded self.old → ⊥ }
        ensures takes { Takes (said_by given.now) self.old (label_line (names_in (said_by given.now)) label.now) result self.new }
        ensures fits { OnOk result (Fits (said_by given.now) self.new.state) }
    {
        if !self.is_ready() {
            return Err(Refusal::NotARun);
        }
        match step(given.alloc, given.system, &mut self.state, label) {
            Ok(sends) => {
                self.due.clear();
                self.at = 0;
                let out = went_out(&self.state, sends.as_slice());
                write_sends(&mut self.due, given, out)?;
                Ok(Passed::Label)
            }
            Err(StepFault::NotEnabled) => Err(Refusal::NotARun),
            Err(StepFault::NoMemory) => Err(Refusal::NoMemory),
        }
    }
}
