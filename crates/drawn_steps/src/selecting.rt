//! The instruction that selects among registers.

ghost use Rattle.std.specs.Prelude.{◌≡◌, ◌+◌, ◌<◌, ◌≤◌, ◌^◌, pos, [], ◌∷◌, ◌++◌, if◌then◌else◌, take, drop, map, length, slice_get, slice_set, Some};
ghost use Rattle.std.specs.Ordering.{int_eq};
ghost use Rattle.register_code.specs.Instructions.{ones};
ghost use Rattle.drawn_choices.specs.Draws.{after_words, option_drawn, word_from};
ghost use Rattle.drawn_steps.specs.Drawing.{Selects};

use crate::outbox::Outbox;
use code_steps::Core;
use drawn_choices::pick;
use rand_core::utils::NextWord;
use rand_pcg::Lcg64Xsh32;

fn next_word(generator: &mut Lcg64Xsh32) -> u32
    ensures word { result ≡ word_from generator.old 0 }
    ensures moved { generator.new ≡ after_words 1 generator.old }
{
    generator.next_word()
}

fn is_one(x: i64) -> bool
    ensures { result ≡ int_eq x (pos 1) }
{
    x == 1
}

fn number_at(xs: &[i64], at: usize) -> i64
    requires { at < length xs.now }
    ensures { slice_get xs.now at ≡ Some result }
{
    xs[at]
}

/// Whether the number at a place is 1.
fn holds_one(xs: &[i64], at: usize) -> bool
    requires { at < length xs.now }
    ensures { ones at (drop at xs.now) ≡ (if result then at ∷ ones (at + 1) (drop (at + 1) xs.now) else ones (at + 1) (drop (at + 1) xs.now)) }
{
    is_one(number_at(xs, at))
}

/// How many of these numbers are 1.
fn count_ones(xs: &[i64]) -> usize
    ensures { result ≡ length (ones 0 xs.now) }
{
    let mut count: usize = 0;
    for at in 0..xs.len() {
        if holds_one(xs, at) {
            count += 1;
        }
    }
    count
}

/// The place of the number 1 that stands behind so many others.
fn place_of_one(xs: &[i64], others: usize) -> usize
    requires { others < length (ones 0 xs.now) }
    ensures place { slice_get (ones 0 xs.now) others ≡ Some result }
    ensures within { result < length xs.now }
{
    let mut left = others;
    for at in 0..xs.len() {
        if holds_one(xs, at) {
            if left == 0 {
                return at;
            }
            left -= 1;
        }
    }
    unreachable!()
}

/// The place of the number 1 that the next word takes.
fn drawn_place(xs: &[i64], many: usize, generator: &mut Lcg64Xsh32) -> usize
    requires many { many ≡ length (ones 0 xs.now) }
    requires some { 0 < many }
    ensures value { option_drawn (map pos (ones 0 xs.now)) (word_from generator.old 0) ≡ Some (pos result) }
    ensures within { result < length xs.now }
    ensures moved { generator.new ≡ after_words 1 generator.old }
{
    let place = pick(next_word(generator), many as u128);
    place_of_one(xs, place as usize)
}

/// So many numbers from a place on.
fn run_at(xs: &[i64], first: u32, count: u32) -> &[i64]
    requires { first + count ≤ length xs.now }
    ensures { result.now ≡ take count (drop first xs.now) }
{
    let from = first as usize;
    &xs[from..from + count as usize]
}

/// The register holds a number, and no word is used.
fn settle(core: &mut Core, r: u32, x: usize)
    requires there { r < length core.old.registers }
    requires small { core.old.next < 2 ^ 63 }
    requires fits { x < 2 ^ 63 }
    ensures { core.new ≡ record core.old { next = core.old.next + 1; registers = slice_set core.old.registers r (pos x) } }
{
    core.put(r as usize, x as i64);
}

/// A place is noted as a choice.
fn note_place(out: &mut Outbox, place: usize)
    requires room { length out.old.chosen < out.old.choices_room }
    requires fits { place < 2 ^ 63 }
    ensures { out.new ≡ record out.old { chosen = out.old.chosen ++ pos place ∷ [] } }
{
    out.note(place as i64);
}

/// Which of so many registers hold 1: of none the count, of one its offset, and of more the one that the
/// next word takes.
pub fn select(
    core: &mut Core,
    r: u32,
    first: u32,
    count: u32,
    generator: &mut Lcg64Xsh32,
    out: &mut Outbox,
)
    requires there { r < length core.old.registers }
    requires run { first + count ≤ length core.old.registers }
    requires small { core.old.next < 2 ^ 63 }
    requires room { length out.old.chosen < out.old.choices_room }
    ensures { Selects r count (ones 0 (take count (drop first core.old.registers))) core.old core.new out.old out.new generator.old generator.new }
{
    let xs = run_at(core.registers(), first, count);
    let many = count_ones(xs);
    if many == 0 {
        settle(core, r, count as usize);
    } else if many == 1 {
        let place = place_of_one(xs, 0);
        settle(core, r, place);
    } else {
        let place = drawn_place(xs, many, generator);
        note_place(out, place);
        settle(core, r, place);
    }
}
