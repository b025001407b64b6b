//! The words of the command line.

use std::alloc::Global;
use std::{env, io};
use tap_base::{List, NoMemory, Text};

/// Why there are no words.
pub enum WordsFault {
    /// A word is no text.
    NotText,
    /// Memory was refused.
    NoMemory,
}

impl From<NoMemory> for WordsFault {
    ghost use Rattle.std.specs.Prelude.{◌≡◌};
    ghost use Rattle.tapc.specs.declared.words.WordsFault.TheVariants as fault;

    ghost from_gives = { λ _ e. e ≡ fault.NoMemory };

    fn from(_e: NoMemory) -> WordsFault {
        WordsFault::NoMemory
    }
}

/// The arguments are no words where memory is refused, or where one of them is no text.
impl From<io::Error> for WordsFault {
    ghost use Rattle.std.specs.Prelude.{◌≡◌};
    ghost use Rattle.std.specs.IoError.{error_kind};
    ghost use Rattle.std.specs.declared.io.ErrorKind.TheVariants.{OutOfMemory};
    ghost use Rattle.tapc.specs.declared.words.WordsFault.TheVariants as fault;

    ghost from_gives = { λ e given. (error_kind e ≡ OutOfMemory → given ≡ fault.NoMemory) × ((error_kind e ≡ OutOfMemory → ⊥) → given ≡ fault.NotText) };

    fn from(e: io::Error) -> WordsFault {
        if e.kind() == io::ErrorKind::OutOfMemory {
            WordsFault::NoMemory
        } else {
            WordsFault::NotText
        }
    }
}

/// The words after the program's name. What they are is not told: the kit says nothing of arguments.
pub fn words(rt: &HostRuntime, alloc: Global) -> Result<List<Text>, WordsFault> {
    let mut all = List::new(alloc);
    let mut args = env::args(rt)?;
    let _name = args.next();
    for word in args {
        all.push(Text::from_string(word))?;
    }
    Ok(all)
}
