//! What serving an event is given.

use std::alloc::Global;
use tap_base::System;

/// What serving an event is given, and does not change.
#[derive(Clone, Copy)]
pub(crate) struct Given<'a> {
    pub alloc: Global,
    pub system: &'a System,
}
