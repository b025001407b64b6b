//! Declared names, whatever they name.

ghost use Rattle.std.specs.Prelude.{◌≡◌, ◌++◌, ◌<◌, false, length, nat_le, nat_lt, OnOk};
ghost use Rattle.tap_names.specs.Limits.{most_bytes};
ghost use Rattle.tap_names.specs.NameOffences.{name_offences};
ghost use Rattle.tap_base.specs.Offences.{Clears, where_};
ghost use Rattle.tap_names.specs.Tables.{entries_of, is_among, names_in};

use crate::fault::refusal;
use crate::limits::MOST_BYTES;
use crate::named::Named;
use crate::table::Table;
use tap_base::{Ident, Place, Refusal, RefusalCode};

/// Whether a name is not too long, and not one that is declared before.
pub fn check_name(name: &Ident, taken: bool) -> Result<(), Refusal>
    ensures judged { Clears (where_ (nat_lt most_bytes (length name.now.text)) RefusalCode.X1 name.now.place ++ where_ taken RefusalCode.N2 name.now.place) result }
    ensures fresh { OnOk result (taken ≡ false) }
{
    if name.text.as_str().len() > MOST_BYTES {
        return Err(refusal(RefusalCode::X1, name.place));
    }
    if taken {
        return Err(refusal(RefusalCode::N2, name.place));
    }
    Ok(())
}

/// Whether one more may stand behind so many.
pub fn check_count(before: usize, most: usize, place: Place) -> Result<(), Refusal>
    ensures judged { Clears (where_ (nat_le most before) RefusalCode.X1 place) result }
    ensures few { OnOk result (before < most) }
{
    if before >= most {
        Err(refusal(RefusalCode::X1, place))
    } else {
        Ok(())
    }
}

/// Whether a name is not too long, and not in the table.
pub fn check_first(table: &Table<Named>, name: &Ident) -> Result<(), Refusal>
    ensures judged { Clears (name_offences (names_in (entries_of table.now)) name.now) result }
    ensures fresh { OnOk result (is_among name.now.text (names_in (entries_of table.now)) ≡ false) }
{
    check_name(name, table.has(name.text.as_str()))
}

/// Whether a name is not too long, and in neither table.
#[tactic(auto, using(crate::proofs::Spaces::among_both))]
pub fn check_new<V: Copy + Drop>(
    outer: &Table<V>,
    table: &Table<V>,
    name: &Ident,
) -> Result<(), Refusal>
    ensures judged { Clears (name_offences (names_in (entries_of outer.now) ++ names_in (entries_of table.now)) name.now) result }
    ensures fresh { OnOk result (is_among name.now.text (names_in (entries_of table.now)) ≡ false) }
{
    let text = name.text.as_str();
    check_name(name, outer.has(text) || table.has(text))
}
