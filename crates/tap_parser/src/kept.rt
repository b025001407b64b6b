//! What is kept of a form with expressions in it.

ghost use Rattle.std.specs.Prelude.{◌≡◌, IfOk};
ghost use Rattle.tap_parser.specs.inner.Keeping.{both, listed, appended};
ghost use Rattle.tap_parser.specs.inner.Reading.{whole};

use std::alloc::Global;
use tap_base::{List, NoMemory};
use tap_expr::Stuck;
use tap_lexer::Found;

/// What is kept of a form that was read. An expression may be as long as its text, so one with more
/// than 200 nodes is let go and only read on.
#[derive(Debug, Drop)]
pub enum Kept<T> {
    /// The form: each expression in it has at most 200 nodes.
    Whole(T),
    /// The number of the first token of the first expression that has more than 200 nodes.
    Large(usize),
}

impl<T: Drop> Kept<T> {
    /// Both forms, the second behind the first.
    pub fn and<U: Drop>(self, other: Kept<U>) -> Kept<(T, U)>
        ensures { result ≡ both (λ a b. (a, b)) self other }
    {
        match (self, other) {
            (Kept::Whole(left), Kept::Whole(right)) => Kept::Whole((left, right)),
            (Kept::Large(at), _) => Kept::Large(at),
            (Kept::Whole(_), Kept::Large(at)) => Kept::Large(at),
        }
    }
}

/// A list of one.
pub fn listed<T: Drop>(alloc: Global, first: Kept<T>) -> Result<Kept<List<T>>, NoMemory>
    ensures { IfOk result (λ k. k ≡ listed first) }
{
    match first {
        Kept::Whole(item) => {
            let mut items = List::new(alloc);
            items.push(item)?;
            Ok(Kept::Whole(items))
        }
        Kept::Large(at) => Ok(Kept::Large(at)),
    }
}

/// A list with one more behind it.
pub fn appended<T: Drop>(items: Kept<List<T>>, item: Kept<T>) -> Result<Kept<List<T>>, NoMemory>
    ensures { IfOk result (λ k. k ≡ appended items item) }
{
    match (items, item) {
        (Kept::Whole(mut items), Kept::Whole(item)) => {
            items.push(item)?;
            Ok(Kept::Whole(items))
        }
        (Kept::Large(at), _) => Ok(Kept::Large(at)),
        (Kept::Whole(_), Kept::Large(at)) => Ok(Kept::Large(at)),
    }
}

/// A form without expressions is kept whole.
pub fn unspoiled<T: Drop>(read: Result<Found<T>, Stuck>) -> Result<Found<Kept<T>>, Stuck>
    ensures { result ≡ whole read }
{
    match read {
        Ok(found) => Ok(Found {
            value: Kept::Whole(found.value),
            next: found.next,
        }),
        Err(stuck) => Err(stuck),
    }
}
