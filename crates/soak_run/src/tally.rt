//! How often labels of some kinds came in a run.

ghost use Rattle.std.specs.Prelude.{◌≡◌, [], ◌∷◌, length};
ghost use Rattle.soak_run.specs.inner.Counting.{HasRoom, counted, nothing};

use abstract_run::Label;

/// How often labels of some kinds came in a run, and how many datagrams went out with its labels.
#[derive(Clone, Copy, Debug, PartialEq, Eq)]
pub struct Tally {
    /// Actions that ran.
    pub acts: u64,
    /// Datagrams that went out.
    pub sents: u64,
    /// Errors that were rejected.
    pub rejects: u64,
    /// Turns in which no action was enabled.
    pub idles: u64,
    /// Events in which nothing happened.
    pub voids: u64,
}

impl Tally {
    /// The tally of nothing.
    pub(crate) fn new() -> Tally
        ensures { result ≡ nothing }
    {
        Tally {
            acts: 0,
            sents: 0,
            rejects: 0,
            idles: 0,
            voids: 0,
        }
    }

    /// Counts labels, and so many datagrams that went out with them.
    pub(crate) fn count(&mut self, labels: &[Label], sents: usize)
        requires { HasRoom self.old (length labels.now) sents }
        ensures { self.new ≡ counted self.old labels.now sents }
    {
        for label in labels {
            self.count_label(label);
        }
        self.sents += sents as u64;
    }

    /// Counts a label.
    fn count_label(&mut self, label: &Label)
        requires { HasRoom self.old 1 0 }
        ensures { self.new ≡ counted self.old (label.now ∷ []) 0 }
    {
        match label {
            Label::Act { .. } => self.acts += 1,
            Label::Reject { .. } => self.rejects += 1,
            Label::Idle { .. } => self.idles += 1,
            Label::Void => self.voids += 1,
            _ => {}
        }
    }
}
