//! Which input of a system a setting is for.

ghost use Rattle.std.specs.Prelude.{◌≡◌, ◌<◌, length, IfSome, bytes_eq};
ghost use Rattle.std.specs.List.{position};
ghost use Rattle.tap_settings.specs.Spots.{spot_in, spot_of};

use tap_base::{Process, Range, Var};

/// An input: its number among those of its process, the number of the process, and its range.
#[derive(Clone, Copy, Debug, PartialEq, Eq)]
pub struct Spot {
    pub process: usize,
    pub input: usize,
    pub range: Range,
}

/// The first input of a name, of the first process of a name; none where there is no such process or
/// it has no such input.
pub fn spot_of(processes: &[Process], process: &str, input: &str) -> Option<Spot>
    ensures { result ≡ spot_of processes.now process.now input.now }
{
    let Some(at) = process_named(processes, process) else {
        return None;
    };
    spot_in(at, &processes[at], input)
}

/// The first input of a name, of the process numbered `at`.
fn spot_in(at: usize, process: &Process, name: &str) -> Option<Spot>
    ensures { result ≡ spot_in at process.now name.now }
{
    let inputs = process.inputs.as_slice();
    let Some(input) = input_named(inputs, name) else {
        return None;
    };
    let range = inputs[input].range;
    Some(Spot {
        process: at,
        input,
        range,
    })
}

fn process_named(processes: &[Process], name: &str) -> Option<usize>
    ensures value { result ≡ position (λ p. bytes_eq p.name name.now) processes.now }
    ensures within { IfSome result (λ at. at < length processes.now) }
{
    processes
        .iter()
        .position(|process| process.name.as_str() == name)
}

fn input_named(inputs: &[Var], name: &str) -> Option<usize>
    ensures value { result ≡ position (λ v. bytes_eq v.name name.now) inputs.now }
    ensures within { IfSome result (λ at. at < length inputs.now) }
{
    inputs.iter().position(|input| input.name.as_str() == name)
}
