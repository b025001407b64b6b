//! What judging a line is given.

use run_text::Names;
use std::alloc::Global;
use tap_base::System;

/// What judging a line is given, and does not change: a system, and its names.
#[derive(Clone, Copy)]
pub struct Given<'a> {
    pub alloc: Global,
    pub system: &'a System,
    pub names: &'a Names,
}
