//! Bits into a room of bytes, one after another.

ghost use Rattle.std.specs.Prelude.{◌≡◌, ◌+◌, ◌*◌, ◌<◌, ◌≤◌, [], ◌∷◌, length};
ghost use Rattle.byte_meaning.specs.Spelling.{digits};
ghost use Rattle.bit_codec.specs.inner.Puts.{IsFilled, IsReady, Puts};

/// Where the next bit goes: how many bytes are whole, and the bits behind them, which are fewer than 8,
/// as a number.
#[derive(Clone, Copy, Debug)]
pub(crate) struct Pending {
    pub(crate) at: usize,
    pub(crate) count: u32,
    pub(crate) bits: u8,
}

fn put_bit(room: &mut [u8], p: Pending, bit: u8) -> Pending
    requires ready { IsReady p }
    requires bit { bit < 2 }
    requires room { p.at < length room.old }
    ensures { Puts room.old p (bit ∷ []) room.new result }
{
    let bits = 2 * p.bits + bit;
    if p.count == 7 {
        room[p.at] = bits;
        return Pending {
            at: p.at + 1,
            count: 0,
            bits: 0,
        };
    }
    Pending {
        at: p.at,
        count: p.count + 1,
        bits,
    }
}

/// Puts the lowest bits of a number, so many, the most significant first.
pub(crate) fn put_number(room: &mut [u8], p: Pending, width: u32, number: u64) -> Pending
    requires ready { IsReady p }
    requires width { width < 64 }
    requires room { 8 * p.at + p.count + width ≤ 8 * length room.old }
    ensures { Puts room.old p (digits width number) room.new result }
{
    let mut q = p;
    for i in 0..width {
        let bit = (number >> (width - 1 - i)) % 2;
        q = put_bit(room, q, bit as u8);
    }
    q
}

/// Puts zeros up to a whole byte, and answers how many bytes there are.
pub(crate) fn put_zeros(room: &mut [u8], p: Pending) -> usize
    requires ready { IsReady p }
    requires room { 8 * p.at + p.count ≤ 8 * length room.old }
    ensures { IsFilled room.old p room.new result }
{
    if p.count > 0 {
        let q = put_number(room, p, 8 - p.count, 0);
        return q.at;
    }
    p.at
}
