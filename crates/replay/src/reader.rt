//! A trace that comes in pieces is cut into lines, and these are judged.

ghost use Rattle.std.specs.Prelude.{◌≡◌, ◌+◌, ◌++◌, ◌∷◌, [], ℕ, List, Err, IfErr, MatchOption, OnErr, OnOk, length};
ghost use Rattle.abstract_run.specs.declared.state.State.{State};
ghost use Rattle.run_text.specs.Names.{AreNames};
ghost use Rattle.run_text.specs.ScheduleText.{Lacks};
ghost use Rattle.run_text.specs.TraceText.{names_in};
ghost use Rattle.replay.specs.Traces.{Judges};
ghost use Rattle.replay.specs.inner.Judging.{IsGiven, said_by};
ghost use Rattle.replay.specs.inner.Progress.{Advances, EndsLine, IsText, IsUnderWay, Progress};

use crate::fault::ReplayFault;
use crate::given::Given;
use crate::judge::Judge;
use crate::passed::Refusal;

/// How many lines a trace has at most.
const MOST_LINES: u64 = 4_294_967_295;

/// A trace that is read piece by piece: its lines so far are judged.
#[derive(Debug, Drop)]
pub(crate) struct Reader {
    pub(crate) judge: Judge,
    /// What was read of the next line.
    pub(crate) line: Vec<u8>,
    /// The number of the next line, counted from 1.
    pub(crate) number: u64,
}

impl Reader {
    /// Takes the next piece of the trace, and judges each line that comes to its end in it.
    pub(crate) fn piece(&mut self, given: &Given<'_>, piece: &[u8]) -> Result<(), ReplayFault>
        requires given { IsGiven given.now }
        requires going { IsUnderWay (said_by given.now) self.old.number self.old.judge }
        ensures goes_on { OnOk result ((start : State) (taken : List ℕ) → Progress (said_by given.now) start taken self.old.line.items self.old.number self.old.judge → Progress (said_by given.now) start (taken ++ piece.now) self.new.line.items self.new.number self.new.judge) }
        ensures going { OnOk result (IsUnderWay (said_by given.now) self.new.number self.new.judge) }
        ensures advances { OnOk result (Advances self.old.number self.old.line.items (length piece.now) self.new.number self.new.line.items) }
        ensures fault { OnErr result ((start : State) (taken behind : List ℕ) → Progress (said_by given.now) start taken self.old.line.items self.old.number self.old.judge → Judges (said_by given.now) start (taken ++ (piece.now ++ behind)) result) }
        ensures no_read { IfErr result (λ e. e ≡ ReplayFault.ReadFault → ⊥) }
    {
        let mut rest = piece;
        while let Some((end, behind)) = split_line(rest) {
            if let Err(fault) = self.end_line(given, end) {
                return Err(fault);
            }
            rest = behind;
        }
        self.line.extend_from_slice(rest)?;
        Ok(())
    }

    /// Takes the end of a line, and judges the line.
    fn end_line(&mut self, given: &Given<'_>, end: &[u8]) -> Result<(), ReplayFault>
        requires given { IsGiven given.now }
        requires going { IsUnderWay (said_by given.now) self.old.number self.old.judge }
        requires whole { Lacks 10 end.now }
        ensures goes_on { OnOk result ((start : State) (taken : List ℕ) → Progress (said_by given.now) start taken self.old.line.items self.old.number self.old.judge → Progress (said_by given.now) start (taken ++ (end.now ++ 10 ∷ [])) self.new.line.items self.new.number self.new.judge) }
        ensures going { OnOk result (IsUnderWay (said_by given.now) self.new.number self.new.judge) }
        ensures next { OnOk result (self.new.number ≡ self.old.number + 1) }
        ensures fault { OnErr result ((start : State) (taken behind : List ℕ) → Progress (said_by given.now) start taken self.old.line.items self.old.number self.old.judge → Judges (said_by given.now) start (taken ++ (end.now ++ 10 ∷ behind)) result) }
        ensures no_read { IfErr result (λ e. e ≡ ReplayFault.ReadFault → ⊥) }
    {
        self.line.extend_from_slice(end)?;
        match self.judge_line(given) {
            Ok(()) => {
                self.line.clear();
                Ok(())
            }
            Err(fault) => Err(fault),
        }
    }

    /// Judges the line that was read, which has the next number.
    fn judge_line(&mut self, given: &Given<'_>) -> Result<(), ReplayFault>
        requires given { IsGiven given.now }
        requires going { IsUnderWay (said_by given.now) self.old.number self.old.judge }
        ensures goes_on { OnOk result ((start : State) (taken : List ℕ) → Progress (said_by given.now) start taken self.old.line.items self.old.number self.old.judge → Progress (said_by given.now) start (taken ++ 10 ∷ []) [] self.new.number self.new.judge) }
        ensures going { OnOk result (IsUnderWay (said_by given.now) self.new.number self.new.judge) }
        ensures next { OnOk result (self.new.number ≡ self.old.number + 1) }
        ensures fault { OnErr result ((start : State) (taken text : List ℕ) → Progress (said_by given.now) start taken self.old.line.items self.old.number self.old.judge → EndsLine taken self.old.line.items text → Judges (said_by given.now) start text result) }
        ensures no_read { IfErr result (λ e. e ≡ ReplayFault.ReadFault → ⊥) }
    {
        let number = self.number;
        if number > MOST_LINES {
            return Err(ReplayFault::BadLine { number });
        }
        match self.judge.line(given, self.line.as_slice()) {
            Ok(_) => {
                self.number += 1;
                Ok(())
            }
            Err(Refusal::BadLine) => Err(ReplayFault::BadLine { number }),
            Err(Refusal::NotARun) => Err(ReplayFault::NotARun { line: number }),
            Err(Refusal::NoMemory) => Err(ReplayFault::NoMemory),
        }
    }

    /// Judges the whole trace, of which nothing is left to be read.
    pub(crate) fn finish(&mut self, given: &Given<'_>) -> Result<(), ReplayFault>
        requires given { IsGiven given.now }
        requires going { IsUnderWay (said_by given.now) self.old.number self.old.judge }
        ensures judges { (start : State) (taken : List ℕ) → Progress (said_by given.now) start taken self.old.line.items self.old.number self.old.judge → Judges (said_by given.now) start taken result }
        ensures no_read { IfErr result (λ e. e ≡ ReplayFault.ReadFault → ⊥) }
    {
        if self.line.as_slice().is_empty() {
            return self.close(given);
        }
        match self.judge_line(given) {
            Ok(()) => self.close(given),
            Err(fault) => Err(fault),
        }
    }

    /// Judges whether the end has come, where all lines were judged good.
    fn close(&self, given: &Given<'_>) -> Result<(), ReplayFault>
        requires given { IsGiven given.now }
        ensures judges { (start : State) (text taken : List ℕ) → Progress (said_by given.now) start taken [] self.now.number self.now.judge → IsText text taken → Judges (said_by given.now) start text result }
        ensures no_read { IfErr result (λ e. e ≡ ReplayFault.ReadFault → ⊥) }
    {
        if self.judge.has_ended() {
            Ok(())
        } else {
            Err(ReplayFault::BadLine {
                number: self.number,
            })
        }
    }
}

/// The first line of a text and what is behind its line feed; none exactly where there is no line feed.
fn split_line(text: &[u8]) -> Option<(&[u8], &[u8])>
    ensures { MatchOption result (Lacks 10 text.now) (λ x. (text.now ≡ x.0.now ++ 10 ∷ x.1.now) × Lacks 10 x.0.now) }
{
    for at in 0..text.len() {
        if text[at] == b'\n' {
            return Some((&text[..at], &text[at + 1..]));
        }
    }
    None
}
