//! Words, and the options that they take.

ghost use Rattle.std.specs.Prelude.{◌≡◌, ◌<◌, ◌≤◌, ◌≤ℤ◌, ◌^◌, ℕ, Some, length, map, pos, slice_get};
ghost use Rattle.tap_base.specs.Lists.{Each};
ghost use Rattle.tap_base.specs.Ranges.{values_of, width_of};
ghost use Rattle.drawn_choices.specs.Draws as spec;

use rand_core::utils::NextWord;
use rand_pcg::Lcg64Xsh32;
use tap_base::Range;

/// The generator of the process of this number, in a run with this seed.
pub fn generator_of(seed: u64, process: u32) -> Lcg64Xsh32
    ensures { result ≡ spec.generator_of seed process }
{
    Lcg64Xsh32::new(seed, u64::from(process))
}

/// Which of so many options a word takes, counted from 0. There is one at least, and 2^64 at most.
#[tactic(auto, using(crate::proofs::Words::drawn_below))]
pub fn pick(word: u32, count: u128) -> u128
    requires some { 0 < count }
    requires few { count ≤ 2 ^ 64 }
    ensures value { result ≡ spec.drawn word count }
    ensures within { result < count }
{
    (u128::from(word) * count) >> 32
}

fn next_word(generator: &mut Lcg64Xsh32) -> u32
    ensures word { result ≡ spec.word_from generator.old 0 }
    ensures moved { generator.new ≡ spec.after_words 1 generator.old }
{
    generator.next_word()
}

/// How many values a range has.
fn width(range: Range) -> u128
    requires { range.lo ≤ℤ range.hi }
    ensures width { result ≡ width_of range }
    ensures some { 0 < result }
    ensures few { result ≤ 2 ^ 64 }
{
    u128::from(range.hi.abs_diff(range.lo)) + 1
}

/// The value of a range at a place, counted from 0.
#[tactic(auto, using(tap_base::proofs::RangeFacts::value_at))]
fn value_at(range: Range, place: u128) -> i64
    requires { place < width_of range }
    ensures { slice_get (values_of range) place ≡ Some result }
{
    (i128::from(range.lo) + place as i128) as i64
}

/// The value of a range that the next word of the generator takes. The range has one at least.
pub fn draw_value(range: Range, generator: &mut Lcg64Xsh32) -> i64
    requires { range.lo ≤ℤ range.hi }
    ensures value { spec.option_drawn (values_of range) (spec.word_from generator.old 0) ≡ Some result }
    ensures moved { generator.new ≡ spec.after_words 1 generator.old }
{
    let place = pick(next_word(generator), width(range));
    value_at(range, place)
}

/// The one of these numbers that the next word of the generator takes. There is one at least.
pub fn draw_number(numbers: &[usize], generator: &mut Lcg64Xsh32) -> usize
    requires { 0 < length numbers.now }
    ensures value { spec.option_drawn (map pos numbers.now) (spec.word_from generator.old 0) ≡ Some (pos result) }
    ensures within { (n : ℕ) → Each (λ k. k < n) numbers.now → result < n }
    ensures moved { generator.new ≡ spec.after_words 1 generator.old }
{
    let place = pick(next_word(generator), numbers.len() as u128);
    numbers[place as usize]
}
