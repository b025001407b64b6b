//! What is written to: a variable, or one cell of an array.

ghost use Rattle.std.specs.Prelude.{◌≡◌, flat_map, is_some, IfOk};
ghost use Rattle.tap_base.specs.Option.{each};
ghost use Rattle.tap_names.specs.Refusals.{Judges};
ghost use Rattle.tap_types.specs.Scopes.{named_in};
ghost use Rattle.tap_types.specs.StmtOffences.{index_offences, kinds_of, target_offences};
ghost use Rattle.tap_types.specs.Systems.{index_of, target_of};
ghost use Rattle.tap_types.specs.inner.Typing.{Aims, AimsAll, Bases, IsListed, scope_of};

use crate::exprs::type_value;
use crate::scope::Names;
use std::alloc::Global;
use tap_base::{AstExpr, AstTarget, Expr, List, Place, Range, Refusal, RefusalCode, Target};
use tap_names::{Kind, Named, TypeFault, refusal};

/// Cells that can be written: those of a variable or an array.
#[derive(Clone, Copy, Debug)]
pub struct Base {
    pub first: u32,
    pub length: u32,
    pub kind: Kind,
    pub range: Range,
}

/// A target, and what is written there.
#[derive(Debug, Drop)]
pub struct Aimed {
    pub target: Target,
    pub kind: Kind,
}

/// Targets, and what is written to each.
#[derive(Debug, Drop)]
pub struct AimedAll {
    pub targets: List<Target>,
    pub kinds: List<Kind>,
}

/// Targets with their kinds.
#[tactic(auto, using(tap_names::proofs::Faults::front, tap_names::proofs::Faults::back, tap_names::proofs::Faults::refused))]
pub fn aim_all(alloc: Global, names: &Names, targets: &[AstTarget]) -> Result<AimedAll, TypeFault>
    requires { IsListed names.now }
    ensures { let c = scope_of names.now in
        AimsAll (flat_map (target_offences c) targets.now) (kinds_of c targets.now) (each (target_of c) targets.now) result }
{
    let mut found = List::new(alloc);
    let mut kinds = List::new(alloc);
    'targets: for target in targets {
        let aimed = aim(alloc, names, target)?;
        found.push(aimed.target)?;
        kinds.push(aimed.kind)?;
    }
    Ok(AimedAll {
        targets: found,
        kinds,
    })
}

/// A target with its kind.
#[tactic(auto, using(tap_names::proofs::Faults::front, tap_names::proofs::Faults::back, tap_names::proofs::Faults::refused))]
pub fn aim(alloc: Global, names: &Names, target: &AstTarget) -> Result<Aimed, TypeFault>
    requires { IsListed names.now }
    ensures { let c = scope_of names.now in
        Aims (target_offences c target.now) (named_in c target.now.name.text) (target_of c target.now) result }
{
    let place = target.name.place;
    let named = names.named(target.name.text.as_str());
    let base = base_of(named, target.index.is_some(), place)?;
    let index = type_index(alloc, names, &target.index)?;
    Ok(Aimed {
        target: Target {
            first: base.first,
            length: base.length,
            index,
            range: base.range,
            place,
        },
        kind: base.kind,
    })
}

/// What a target's name stands for: a variable where no index is written, an array where one is.
fn base_of(named: Option<Named>, indexed: bool, place: Place) -> Result<Base, Refusal>
    ensures { Bases place named indexed result }
{
    match named {
        None => Err(refusal(RefusalCode::N1, place)),
        Some(Named::Variable { first, kind, range }) if !indexed => Ok(Base {
            first,
            length: 1,
            kind,
            range,
        }),
        Some(
            Named::Array {
                first,
                length,
                kind,
                range,
            },
        ) if indexed => Ok(Base {
            first,
            length,
            kind,
            range,
        }),
        Some(_) => Err(refusal(RefusalCode::K1, place)),
    }
}

/// The index of a target, where one is written.
fn type_index(
    alloc: Global,
    names: &Names,
    index: &Option<AstExpr>,
) -> Result<Option<Expr>, TypeFault>
    requires { IsListed names.now }
    ensures judged { Judges (index_offences (scope_of names.now) index.now) (index_of (scope_of names.now) index.now) result }
    ensures kept { IfOk result (λ found. is_some found ≡ is_some index.now) }
{
    match index {
        None => Ok(None),
        Some(index) => Ok(Some(type_value(alloc, names, index, Kind::Number)?)),
    }
}
