//! Pushes into room that is there already.

ghost use Rattle.std.specs.Prelude.{◌≡◌, ◌+◌, ◌<◌, ◌≤◌, [], ◌∷◌, ◌++◌, map, replicate, length, vec_len, vec_capacity};

use register_code::CodeTemporary;

/// Pushes an element where there is room for it, so that no memory is asked for.
#[tactic(auto, using(std::proofs::lemmas::List::Edits::insert_end))]
pub fn push_spare<T: Drop>(items: &mut Vec<T>, item: T)
    requires { vec_len items.old < vec_capacity items.old }
    ensures items { items.new.items ≡ items.old.items ++ item ∷ [] }
    ensures room { vec_capacity items.new ≡ vec_capacity items.old }
{
    let end = items.len();
    match items.insert(end, item) {
        Ok(()) => (),
        Err(_) => unreachable!(),
    }
}

/// Pushes the least value of each temporary's range.
pub(crate) fn push_lows(items: &mut Vec<i64>, temporaries: &[CodeTemporary])
    requires { vec_len items.old + length temporaries.now ≤ vec_capacity items.old }
    ensures items { items.new.items ≡ items.old.items ++ map (λ t. t.lo) temporaries.now }
    ensures room { vec_capacity items.new ≡ vec_capacity items.old }
{
    for temporary in temporaries {
        push_spare(items, temporary.lo);
    }
}

/// Pushes so many zeros.
pub(crate) fn push_zeros(items: &mut Vec<u32>, count: usize)
    requires { vec_len items.old + count ≤ vec_capacity items.old }
    ensures items { items.new.items ≡ items.old.items ++ replicate count 0 }
    ensures room { vec_capacity items.new ≡ vec_capacity items.old }
{
    for at in 0..count {
        push_spare(items, 0);
    }
}
