//! What an action sends and chooses.

ghost use Rattle.std.specs.Prelude.{◌≡◌, ◌<◌, [], ◌∷◌, ◌++◌, length, IfOk};
ghost use Rattle.drawn_steps.specs.Boxes.{Boxed, IsNewOutbox};

use crate::rooms::most_of_process;
use action_code::Verified;
use code_steps::push_spare;
use std::alloc::Global;
use std::marker::Model;
use tap_base::NoMemory;

/// A send: its values of all fields are `count` values from `first` on.
#[derive(Clone, Copy, Debug, PartialEq, Eq)]
pub struct Sent {
    pub to: u32,
    pub message: u32,
    pub first: u32,
    pub count: u32,
}

/// The sends of an action, their values and the choices used, with room taken at opening.
#[derive(Debug, Drop)]
pub struct Outbox {
    sends: Vec<Sent>,
    values: Vec<i64>,
    choices: Vec<i64>,
}

impl Model for Outbox {
    ghost use Rattle.std.specs.Prelude.{vec_capacity};
    ghost use Rattle.drawn_steps.specs.Boxes.{Boxed};

    ghost Value = { Boxed };

    ghost view = { λ o. record { sent = o.sends.items; values = o.values.items; chosen = o.choices.items; sends_room = vec_capacity o.sends; values_room = vec_capacity o.values; choices_room = vec_capacity o.choices } };
}

impl Outbox {
    /// Empty, with room for any one action of a process. No other call takes memory.
    #[tactic(auto, using(crate::proofs::Roomy::is_new))]
    pub fn new(alloc: Global, code: &Verified, process: u32) -> Result<Outbox, NoMemory>
        requires { process < length code.now.processes }
        ensures { IfOk result (λ o. IsNewOutbox code.now process o) }
    {
        let code = code.code();
        let most = most_of_process(code, process);
        Outbox::with_room(
            alloc,
            most.sends as usize,
            most.values as usize,
            most.choices as usize,
        )
    }

    /// Empty, with room for so many of each.
    fn with_room(
        alloc: Global,
        sends: usize,
        values: usize,
        choices: usize,
    ) -> Result<Outbox, NoMemory>
        ensures { IfOk result (λ o. o ≡ record { sent = []; values = []; chosen = []; sends_room = sends; values_room = values; choices_room = choices }) }
    {
        Ok(Outbox {
            sends: Vec::with_capacity(alloc, sends)?,
            values: Vec::with_capacity(alloc, values)?,
            choices: Vec::with_capacity(alloc, choices)?,
        })
    }

    /// Empty again, with the same room.
    pub fn clear(&mut self)
        ensures { self.new ≡ record self.old { sent = []; values = []; chosen = [] } }
    {
        self.sends.clear();
        self.values.clear();
        self.choices.clear();
    }

    /// The sends, in order.
    pub fn sends(&self) -> &[Sent]
        ensures { result.now ≡ self.now.sent }
    {
        self.sends.as_slice()
    }

    /// The values of all fields of the sends.
    pub fn values(&self) -> &[i64]
        ensures { result.now ≡ self.now.values }
    {
        self.values.as_slice()
    }

    /// The choices used, in order.
    pub fn choices(&self) -> &[i64]
        ensures { result.now ≡ self.now.chosen }
    {
        self.choices.as_slice()
    }

    /// Notes a choice, where there is room for it.
    pub fn note(&mut self, choice: i64)
        requires { length self.old.chosen < self.old.choices_room }
        ensures { self.new ≡ record self.old { chosen = self.old.chosen ++ choice ∷ [] } }
    {
        push_spare(&mut self.choices, choice);
    }

    /// Notes a value of a send, where there is room for it.
    pub(crate) fn note_value(&mut self, value: i64)
        requires { length self.old.values < self.old.values_room }
        ensures { self.new ≡ record self.old { values = self.old.values ++ value ∷ [] } }
    {
        push_spare(&mut self.values, value);
    }

    /// Notes a send, where there is room for it.
    pub(crate) fn note_send(&mut self, sent: Sent)
        requires { length self.old.sent < self.old.sends_room }
        ensures { self.new ≡ record self.old { sent = self.old.sent ++ sent ∷ [] } }
    {
        push_spare(&mut self.sends, sent);
    }
}
