//! The value of an expression in 64-bit numbers.

ghost use Rattle.std.specs.Prelude.{◌≡◌, ◌≢◌, IsTrue, pos, slice_get};
ghost use Rattle.tap_exec.specs.Computed.{applied, can_apply, computed, negated};
ghost use Rattle.tap_exec.specs.Value.{operation, remainder, truth};

use tap_base::{Expr, ExprKind, Op};

/// The value of an expression, or nothing where a part of it does not fit.
pub fn try_eval(e: &Expr, cells: &[i64], inputs: &[i64], received: &[i64]) -> Option<i64>
    ensures { result ≡ computed e.now cells.now inputs.now received.now }
{
    match &e.kind {
        ExprKind::Number(n) => Some(*n),
        ExprKind::Cell(k) => read(cells, *k as usize),
        ExprKind::Element {
            first,
            length,
            index,
        } => {
            let i = try_eval(index.get(), cells, inputs, received)?;
            if 0 <= i && i < *length as i64 {
                read(cells, *first as usize + i as usize)
            } else {
                None
            }
        }
        ExprKind::Input(k) => read(inputs, *k as usize),
        ExprKind::Part(k) => read(received, *k as usize),
        ExprKind::Not(inner) => {
            let x = try_eval(inner.get(), cells, inputs, received)?;
            Some(truth(x == 0))
        }
        ExprKind::Neg(inner) => {
            let x = try_eval(inner.get(), cells, inputs, received)?;
            negate(x)
        }
        ExprKind::Binary { op, left, right } => {
            let x = try_eval(left.get(), cells, inputs, received)?;
            let y = try_eval(right.get(), cells, inputs, received)?;
            try_apply(*op, x, y)
        }
    }
}

fn read(xs: &[i64], k: usize) -> Option<i64>
    ensures { result ≡ slice_get xs.now k }
{
    xs.get(k).copied()
}

fn truth(b: bool) -> i64
    ensures { result ≡ truth b }
{
    if b { 1 } else { 0 }
}

fn negate(x: i64) -> Option<i64>
    ensures { result ≡ negated x }
{
    x.checked_neg()
}

fn try_apply(op: Op, x: i64, y: i64) -> Option<i64>
    ensures { result ≡ applied op x y }
{
    match op {
        Op::Add => x.checked_add(y),
        Op::Sub => x.checked_sub(y),
        Op::Mul => x.checked_mul(y),
        Op::Div => {
            if y == 0 || x == i64::MIN && y == -1 {
                None
            } else {
                Some(apply(op, x, y))
            }
        }
        Op::Mod => { if y == 0 { None } else { Some(apply(op, x, y)) } }
        _ => Some(apply(op, x, y)),
    }
}

/// Euclid's remainder. The machine has none of the least number by -1.
fn remainder(x: i64, y: i64) -> i64
    requires { y ≢ pos 0 }
    ensures { result ≡ remainder x y }
{
    if y == -1 { 0 } else { x.rem_euclid(y) }
}

fn apply(op: Op, x: i64, y: i64) -> i64
    requires can { IsTrue (can_apply op x y) }
    ensures { result ≡ operation op x y }
{
    match op {
        Op::Or => truth(x != 0 || y != 0),
        Op::And => truth(x != 0 && y != 0),
        Op::Eq => truth(x == y),
        Op::Ne => truth(x != y),
        Op::Lt => truth(x < y),
        Op::Le => truth(x <= y),
        Op::Gt => truth(x > y),
        Op::Ge => truth(x >= y),
        Op::Add => x + y,
        Op::Sub => x - y,
        Op::Mul => x * y,
        Op::Div => x.div_euclid(y),
        Op::Mod => remainder(x, y),
        Op::Min => x.min(y),
        Op::Max => x.max(y),
    }
}
