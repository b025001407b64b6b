//! How far a run has come.

use abstract_run::State;
use guard_scheduler::Turnstile;
use rand_pcg::Lcg64Xsh32;
use tap_base::List;

/// How far a run has come: its state, and what stands beside it. Lists have one entry for each
/// process, in text order.
#[derive(Debug, Drop)]
pub struct Course {
    pub state: State,
    /// Whose turn it is among the actions of the process.
    pub turnstiles: List<Turnstile>,
    /// What draws the choices of the actions of the process.
    pub generators: List<Lcg64Xsh32>,
    /// The senders of the errors that have arrived at the process and stand there, in the order in
    /// which they arrived.
    pub errors: List<List<u32>>,
    /// How many cells stand in all channels.
    pub cells: u32,
}
