//! A text that grows by tokens.

ghost use Rattle.std.specs.Prelude.{◌≡◌, [], ◌∷◌, ◌++◌, pos, Some, IfOk, OnOk, codes};
ghost use Rattle.std.specs.Fmt.{decimal, signed_decimal};
ghost use Rattle.tap_base.specs.declared.token.Sign.TheVariants as sign;
ghost use Rattle.tap_printer.specs.Printed.{before_token, bytes_of, mark, name, number};
ghost use Rattle.tap_printer.specs.inner.Pages.{blank, put};

use crate::joints::joint_between;
use crate::spellings::spelled;
use std::alloc::Global;
use std::marker::Model;
use tap_base::{Bytes, NoMemory, Sign};

/// A text that grows by tokens, each behind its joint to the last one. After `NoMemory` it may have
/// a front of the token.
#[derive(Debug, Drop)]
pub struct Pen {
    text: String,
    last: Option<Sign>,
}

impl Model for Pen {
    ghost use Rattle.std.specs.Prelude.{string_bytes};
    ghost use Rattle.tap_printer.specs.inner.Pages.{Page};

    ghost Value = { Page };

    ghost view = { λ p. record { bytes = string_bytes p.text; last = p.last } };
}

impl Pen {
    pub fn new(alloc: Global) -> Pen
        ensures { result ≡ blank }
    {
        Pen {
            text: String::new(alloc),
            last: None,
        }
    }

    /// Writes a word or a symbol.
    pub fn mark(&mut self, sign: Sign) -> Result<(), NoMemory>
        ensures { OnOk result (self.new ≡ put self.old sign (bytes_of (mark sign))) }
    {
        self.join(sign)?;
        self.text.push_str(spelled(sign))?;
        Ok(())
    }

    /// Writes a name.
    pub fn name(&mut self, text: &str) -> Result<(), NoMemory>
        ensures { OnOk result (self.new ≡ put self.old sign.Name text.now) }
    {
        self.join(Sign::Name)?;
        self.text.push_str(text)?;
        Ok(())
    }

    /// Writes a number.
    pub fn number(&mut self, value: i64) -> Result<(), NoMemory>
        ensures { OnOk result (self.new ≡ put self.old sign.Number (signed_decimal value)) }
    {
        self.join(Sign::Number)?;
        write!(self.text, "{value}")?;
        Ok(())
    }

    /// Writes a number that is not below 0.
    pub fn natural(&mut self, number: u64) -> Result<(), NoMemory>
        ensures { OnOk result (self.new ≡ put self.old sign.Number (decimal number)) }
    {
        self.join(Sign::Number)?;
        write!(self.text, "{number}")?;
        Ok(())
    }

    /// Writes the line feed that ends a text.
    pub fn finish(mut self) -> Result<Bytes, NoMemory>
        ensures { IfOk result (λ b. b ≡ self.bytes ++ codes "\n") }
    {
        self.text.push('\n')?;
        Ok(Bytes {
            items: self.text.into_bytes(),
        })
    }

    /// Writes the joint to a token of this sign.
    fn join(&mut self, sign: Sign) -> Result<(), NoMemory>
        ensures { OnOk result (self.new ≡ put self.old sign []) }
    {
        if let Some(last) = self.last {
            self.text.push_str(joint_between(last, sign))?;
        }
        self.last = Some(sign);
        Ok(())
    }
}
