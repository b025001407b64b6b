//! The files of the machine.

ghost use Rattle.std.specs.Prelude.{◌≡◌, None};

use link_trait::{Failed, Store};
use std::fs::File;
use std::io::Read;

/// Files by their names. Nothing is told of what they hold. Every error is counted, and so is a read with no
/// file begun.
#[derive(Drop)]
pub struct Files {
    rt: HostRuntime,
    file: Option<File>,
    faults: u64,
}

impl Files {
    /// No file begun, and no fault.
    pub fn new(rt: HostRuntime) -> Files
        ensures { result ≡ record { rt = rt; file = None; faults = 0 } }
    {
        Files {
            rt,
            file: None,
            faults: 0,
        }
    }
}

impl Store for Files {
    ghost contents = { λ s name. None };

    ghost left = { λ s. None };

    ghost faults = { λ s. s.faults };

    fn begin(&mut self, name: &str) -> Result<(), Failed> {
        match File::open(&self.rt, name) {
            Ok(file) => {
                self.file = Some(file);
                Ok(())
            }
            Err(_) => {
                self.faults = self.faults.saturating_add(1);
                Err(Failed)
            }
        }
    }

    fn read(&mut self, buf: &mut [u8]) -> Result<usize, Failed> {
        if let Some(file) = &mut self.file {
            if let Ok(count) = file.read(buf) {
                return Ok(count);
            }
        }
        self.faults = self.faults.saturating_add(1);
        Err(Failed)
    }
}
