//! Lists of forms.

ghost use Rattle.std.specs.Prelude.{◌≡◌, ◌∷◌, [], ℕ, List, Option};
ghost use Rattle.tap_lexer.specs.Depth.{IsShallow};
ghost use Rattle.tap_lexer.specs.Lexeme.{Lexeme, lexemes};
ghost use Rattle.tap_lexer.specs.Rows.{Separated, SomeSeparated, Row};
ghost use Rattle.tap_lexer.specs.Spans.{AreTexts};
ghost use Rattle.tap_lexer.specs.inner.Reading.{Closed, Free, Lacks};
ghost use Rattle.tap_parser.specs.Declarations.{Block};
ghost use Rattle.tap_parser.specs.inner.Forms.{Begins};
ghost use Rattle.tap_parser.specs.inner.Reading.{Answers};

use crate::forms::Form;
use crate::kept::{Kept, appended, listed};
use crate::leaves::expect;
use tap_base::{List, Sign};
use tap_expr::Stuck;
use tap_lexer::{Found, Source};

/// Forms with a sign between them.
pub fn read_separated<F: Form>(
    source: &Source,
    separator: Sign,
    at: usize,
) -> Result<Found<Kept<List<F::Value>>>, Stuck>
    requires texts { AreTexts source.now.text.now source.now.tokens.now }
    requires shallow { IsShallow (lexemes source.now.text.now source.now.tokens.now) }
    requires parted { (x : Lexeme) (us : List Lexeme) → x.sign ≡ separator → F.stops (x ∷ us) }
    ensures { Answers (λ n. Separated (F.spelled n) separator) (λ us. F.stops us × Lacks separator us)
        (lexemes source.now.text.now source.now.tokens.now) at result }
{
    let first = F::read(source, at)?;
    let mut value = listed(source.alloc, first.value)?;
    let mut next = first.next;
    'items: while source.shows(next, separator) {
        let item = F::read(source, next + 1)?;
        value = appended(value, item.value)?;
        next = item.next;
    }
    Ok(Found { value, next })
}

/// Forms with a sign between them behind a word, or nothing.
pub fn read_block<F: Form>(
    source: &Source,
    word: Sign,
    separator: Sign,
    at: usize,
) -> Result<Found<Kept<List<F::Value>>>, Stuck>
    requires texts { AreTexts source.now.text.now source.now.tokens.now }
    requires shallow { IsShallow (lexemes source.now.text.now source.now.tokens.now) }
    requires parted { (x : Lexeme) (us : List Lexeme) → x.sign ≡ separator → F.stops (x ∷ us) }
    ensures { Answers (λ n. Block (F.spelled n) word separator)
        (λ us. (F.stops us × Lacks separator us) × Lacks word us)
        (lexemes source.now.text.now source.now.tokens.now) at result }
{
    if source.shows(at, word) {
        return read_separated::<F>(source, separator, at + 1);
    }
    Ok(Found {
        value: Kept::Whole(List::new(source.alloc)),
        next: at,
    })
}

/// Forms with a sign between them, or nothing, up to a closing sign.
pub fn read_until<F: Form>(
    source: &Source,
    separator: Sign,
    close: Sign,
    at: usize,
) -> Result<Found<Kept<List<F::Value>>>, Stuck>
    requires texts { AreTexts source.now.text.now source.now.tokens.now }
    requires shallow { IsShallow (lexemes source.now.text.now source.now.tokens.now) }
    requires parted { (x : Lexeme) (us : List Lexeme) → x.sign ≡ separator → F.stops (x ∷ us) }
    requires closed { (x : Lexeme) (us : List Lexeme) → x.sign ≡ close → F.stops (x ∷ us) × (x.sign ≡ separator → ⊥) }
    requires apart { (n : Option ℕ) (a : F.Value) (x : Lexeme) (ts us : List Lexeme) → x.sign ≡ close → F.spelled n a (x ∷ ts) us → ⊥ }
    ensures { Answers (λ n. Closed (SomeSeparated (F.spelled n) separator) close) Free
        (lexemes source.now.text.now source.now.tokens.now) at result }
{
    if source.shows(at, close) {
        return Ok(Found {
            value: Kept::Whole(List::new(source.alloc)),
            next: at + 1,
        });
    }
    let items = read_separated::<F>(source, separator, at)?;
    let next = expect(source, close, items.next)?;
    Ok(Found {
        value: items.value,
        next,
    })
}

/// One form or more, each of which begins with a word and is more than it.
pub fn read_row<F: Form>(
    source: &Source,
    word: Sign,
    at: usize,
) -> Result<Found<Kept<List<F::Value>>>, Stuck>
    requires texts { AreTexts source.now.text.now source.now.tokens.now }
    requires shallow { IsShallow (lexemes source.now.text.now source.now.tokens.now) }
    requires free { (us : List Lexeme) → F.stops us }
    requires begun { (n : Option ℕ) (a : F.Value) (ts us : List Lexeme) → F.spelled n a ts us → Begins word ts }
    requires longer { (n : Option ℕ) (a : F.Value) (x : Lexeme) (us : List Lexeme) → F.spelled n a (x ∷ []) us → ⊥ }
    ensures { Answers (λ n. Row (F.spelled n)) (Lacks word)
        (lexemes source.now.text.now source.now.tokens.now) at result }
{
    let first = F::read(source, at)?;
    let mut value = listed(source.alloc, first.value)?;
    let mut next = first.next;
    'items: while source.shows(next, word) {
        let item = F::read(source, next)?;
        value = appended(value, item.value)?;
        next = item.next;
    }
    Ok(Found { value, next })
}
