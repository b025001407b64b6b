//! What an operation gives, in 64 bits.

ghost use Rattle.std.specs.Prelude.{◌≡◌, true};
ghost use Rattle.tap_base.specs.declared.tree.Op.TheVariants as op;
ghost use Rattle.tap_exec.specs.Value as value;
ghost use Rattle.tap_exec.specs.Computed.{can_apply};

use tap_base::Op;

/// Euclid's remainder. By -1 it is 0, also of the least number, of which the machine has none.
fn remainder(x: i64, y: i64) -> i64
    requires { can_apply op.Mod x y ≡ true }
    ensures { result ≡ value.remainder x y }
{
    if y == -1 { 0 } else { x.rem_euclid(y) }
}

/// What an operation gives.
pub fn compute(o: Op, x: i64, y: i64) -> i64
    requires { can_apply o x y ≡ true }
    ensures { result ≡ value.operation o x y }
{
    match o {
        Op::Or => ((x != 0) | (y != 0)) as i64,
        Op::And => ((x != 0) & (y != 0)) as i64,
        Op::Eq => (x == y) as i64,
        Op::Ne => (x != y) as i64,
        Op::Lt => (x < y) as i64,
        Op::Le => (x <= y) as i64,
        Op::Gt => (y < x) as i64,
        Op::Ge => (y <= x) as i64,
        Op::Add => x + y,
        Op::Sub => x - y,
        Op::Mul => x * y,
        Op::Div => x.div_euclid(y),
        Op::Mod => remainder(x, y),
        Op::Min => x.min(y),
        Op::Max => x.max(y),
    }
}
