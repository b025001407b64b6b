//! How much room the actions of a process ask for.

ghost use Rattle.std.specs.Prelude.{◌≡◌, ◌<◌, ℕ, max, length, slice_get, Some};
ghost use Rattle.register_code.specs.declared.code.CodeAction.{CodeAction};
ghost use Rattle.register_code.specs.Verified.{IsVerified};
ghost use Rattle.drawn_steps.specs.Rooms.{AreBodies, AreMost, AreMostOf};

use action_code::{Code, CodeAction, CodeMessage, Uses, uses_of};

fn greater(a: Uses, b: Uses) -> Uses
    ensures { result ≡ record { sends = max a.sends b.sends; values = max a.values b.values; choices = max a.choices b.choices } }
{
    Uses {
        sends: a.sends.max(b.sends),
        values: a.values.max(b.values),
        choices: a.choices.max(b.choices),
    }
}

/// What the bodies of these actions send and choose at most.
fn most_of(messages: &[CodeMessage], actions: &[CodeAction]) -> Uses
    requires { AreBodies messages.now actions.now }
    ensures { AreMost messages.now actions.now result }
{
    let mut most = Uses {
        sends: 0,
        values: 0,
        choices: 0,
    };
    for action in actions {
        most = greater(most, uses_of(messages, action.body.as_slice()));
    }
    most
}

/// What the bodies of a process send and choose at most.
pub(crate) fn most_of_process(code: &Code, process: u32) -> Uses
    requires verified { IsVerified code.now }
    requires there { process < length code.now.processes }
    ensures { AreMostOf code.now process result }
{
    let process = &code.processes.as_slice()[process as usize];
    most_of(code.messages.as_slice(), process.actions.as_slice())
}
