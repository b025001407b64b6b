//! Processes and whole trees.
#![tactic(auto, using(crate::proofs::Appends::after_append))]

ghost use Rattle.std.specs.Prelude.{◌≡◌, List, IfOk, OnOk};
ghost use Rattle.tap_printer.specs.Canonical.{canonical, process_tokens, tree_tokens};
ghost use Rattle.tap_printer.specs.Printed.{Printed};
ghost use Rattle.tap_printer.specs.inner.Pages.{after};

use crate::pen::Pen;
use crate::written::{Written, write_all, write_block, write_separated};
use std::alloc::Global;
use tap_base::{Ast, AstProcess, Bytes, NoMemory, Sign};

/// The canonical text of a tree.
///
/// # Errors
///
/// `NoMemory`, where an allocation is refused.
pub fn print(alloc: Global, tree: &Ast) -> Result<Bytes, NoMemory>
    ensures { IfOk result (λ bytes. bytes ≡ canonical tree.now) }
{
    let mut pen = Pen::new(alloc);
    tree.write(&mut pen)?;
    pen.finish()
}

impl Written for Ast {
    ghost tokens = { tree_tokens };

    fn write(&self, pen: &mut Pen) -> Result<(), NoMemory> {
        write_all(pen, self.messages.as_slice())?;
        write_all(pen, self.processes.as_slice())
    }
}

impl Written for AstProcess {
    ghost tokens = { process_tokens };

    fn write(&self, pen: &mut Pen) -> Result<(), NoMemory> {
        pen.mark(Sign::Process)?;
        self.name.write(pen)?;
        write_block(pen, Sign::Const, Sign::Semicolon, self.consts.as_slice())?;
        write_block(pen, Sign::Inp, Sign::Semicolon, self.inputs.as_slice())?;
        write_block(pen, Sign::Var, Sign::Semicolon, self.vars.as_slice())?;
        write_block(pen, Sign::Timer, Sign::Comma, self.timers.as_slice())?;
        pen.mark(Sign::Begin)?;
        write_separated(pen, Sign::Box, self.actions.as_slice())?;
        pen.mark(Sign::End)
    }
}
