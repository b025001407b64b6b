//! Standard output.

ghost use Rattle.std.specs.Prelude.{◌≡◌, None};

use link_trait::{Failed, Sink};
use std::io::Write;

/// Standard output. Nothing is told of what was written. Every error is counted.
#[derive(Drop)]
pub struct Output {
    rt: HostRuntime,
    faults: u64,
}

impl Output {
    /// No fault.
    pub fn new(rt: HostRuntime) -> Output
        ensures { result ≡ record { rt = rt; faults = 0 } }
    {
        Output { rt, faults: 0 }
    }
}

impl Sink for Output {
    ghost written = { λ s. None };

    ghost faults = { λ s. s.faults };

    fn put(&mut self, bytes: &[u8]) -> Result<(), Failed> {
        match self.rt.stdout().write_all(bytes) {
            Ok(()) => Ok(()),
            Err(_) => {
                self.faults = self.faults.saturating_add(1);
                Err(Failed)
            }
        }
    }
}
