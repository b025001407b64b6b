//! From the text of a system to its tree and to the system, or to the first offence.

ghost use Rattle.std.specs.Prelude.{IfOk};
ghost use Rattle.tap_front.specs.Accepting.{TellsApart};
ghost use Rattle.tap_front.specs.Offences.{TextReads, TreeReads};
ghost use Rattle.tap_front.specs.inner.Faults.{ChecksTo};
ghost use Rattle.tap_base.specs.Resolved.{IsResolved};
ghost use Rattle.width_check.specs.IsChecked.{IsChecked};

use crate::layouts::lays_out;
use crate::offence::Offence;
use std::alloc::Global;
use tap_base::{Ast, NoMemory, Place, Refusal, RefusalCode, System};
use tap_lexer::{LexFault, lex};
use tap_parser::{ParseFault, parse};
use tap_types::{TypeFault, resolve};
use width_check::{Checked, WidthFault, check};

/// How many bytes the text of a system has at most.
pub const LONGEST_TEXT: usize = 1_048_576;

/// The first offence of every text that is longer.
pub const TOO_LONG: Refusal = Refusal {
    code: RefusalCode::L0,
    place: Place { line: 1, column: 1 },
};

/// Why a text gives no system.
#[derive(Debug, Drop)]
pub enum TextFault {
    /// The text has this first offence.
    Refused(Offence),
    /// Memory was refused.
    NoMemory,
}

impl From<NoMemory> for TextFault {
    ghost use Rattle.std.specs.Prelude.{◌≡◌};
    ghost use Rattle.tap_front.specs.declared.texts.TextFault.TheVariants as text;

    ghost from_gives = { λ _ fault. fault ≡ text.NoMemory };

    fn from(_e: NoMemory) -> TextFault {
        TextFault::NoMemory
    }
}

impl From<ParseFault> for TextFault {
    ghost use Rattle.std.specs.Prelude.{◌≡◌};
    ghost use Rattle.tap_front.specs.inner.Faults.{unread};

    ghost from_gives = { λ e fault. fault ≡ unread e };

    fn from(e: ParseFault) -> TextFault {
        match e {
            ParseFault::Refused(refusal) => TextFault::Refused(Offence::Coded(refusal)),
            ParseFault::NoMemory => TextFault::NoMemory,
        }
    }
}

impl From<TypeFault> for TextFault {
    ghost use Rattle.std.specs.Prelude.{◌≡◌};
    ghost use Rattle.tap_front.specs.inner.Faults.{unresolved};

    ghost from_gives = { λ e fault. fault ≡ unresolved e };

    fn from(e: TypeFault) -> TextFault {
        match e {
            TypeFault::Refused(refusal) => TextFault::Refused(Offence::Coded(refusal)),
            TypeFault::NoMemory => TextFault::NoMemory,
        }
    }
}

impl From<WidthFault> for TextFault {
    ghost use Rattle.std.specs.Prelude.{◌≡◌};
    ghost use Rattle.tap_front.specs.inner.Faults.{unchecked};

    ghost from_gives = { λ e fault. fault ≡ unchecked e };

    fn from(e: WidthFault) -> TextFault {
        match e {
            WidthFault::Refused(refusal) => TextFault::Refused(Offence::Coded(refusal)),
            WidthFault::NoMemory => TextFault::NoMemory,
        }
    }
}

/// The tree that a text is read as, or its first offence: L0 where it is too long; else L1 or L2 where it has
/// no tokens; else S2, S1 or S3 where these are no tree within the limits.
pub fn tree_of(alloc: Global, text: &[u8]) -> Result<Ast, ParseFault>
    ensures { TreeReads text.now result }
{
    if text.len() > LONGEST_TEXT {
        return Err(ParseFault::Refused(TOO_LONG));
    }
    match lex(alloc, text) {
        Ok(tokens) => parse(alloc, text, tokens.as_slice()),
        Err(LexFault::Refused(refusal)) => Err(ParseFault::Refused(refusal)),
        Err(LexFault::NoMemory) => Err(ParseFault::NoMemory),
    }
}

/// The system as checked, or its first offence.
fn checked_of(alloc: Global, system: System) -> Result<Checked, WidthFault>
    requires { IsResolved system }
    ensures { ChecksTo system result }
{
    match check(alloc, system) {
        Ok(checked) => Ok(checked),
        Err((_, fault)) => Err(fault),
    }
}

/// The system that a text is accepted as, or its first offence: the one that keeps it from being read as a
/// tree; else the first of names, kinds and limits, N1, N2, N3, K1, K2, X1, X2 or M3: of its declarations, then of
/// the uses of names, then of the sends that nobody receives; else the first of widths, costs and sends, W1 to W7;
/// else M1 where a message has more than 8,192 bits, at the name of the first such; else M2 where two messages that one
/// process receives from one other are not told apart by their bytes, at the name of the second of the first two such.
pub fn accept(alloc: Global, text: &[u8]) -> Result<Checked, TextFault>
    ensures reads { TextReads text.now result }
    ensures checked { IfOk result IsChecked }
    ensures named { IfOk result TellsApart }
{
    let tree = tree_of(alloc, text)?;
    let system = resolve(alloc, &tree)?;
    let checked = checked_of(alloc, system)?;
    lays_out(alloc, checked.system())?;
    Ok(checked)
}
