//! Draws of processes. Their words were found apart from this program, by the steps of PCG's XSH RR 64/32 written out in
//! another language, which gives the published words of the reference generator (42, 54), a15c02b7 and 7b47f409, too:
//!
//! - Process 0 with the seed 0: 3837872008, 932996374, 1548399547.
//! - Process 1 with the seed 0: 257813417, 407017181.

use drawn_choices::{draw_number, draw_value, generator_of, pick};
use tap_base::Range;

/// 2^32 over 3 lies between 1431655765 and 1431655766.
#[test]
fn words_pick_places(rt: HostRuntime) {
    let rows = [
        ("the least word", 0, 3, 0),
        ("the last for the first place", 1431655765, 3, 0),
        ("the first for the second place", 1431655766, 3, 1),
        ("the greatest word", u32::MAX, 3, 2),
        ("a single place", u32::MAX, 1, 0),
        ("as many places as words", u32::MAX, 1 << 32, 4294967295),
    ];
    for (name, word, count, place) in rows {
        assert_eq!(rt; pick(word, count), place, "{name}");
    }
}

/// Of ten values from -2 on, the words of process 0 take those at the places 8, 2 and 3.
#[test]
fn values_are_drawn(rt: HostRuntime) {
    let mut generator = generator_of(0, 0);
    let range = Range { lo: -2, hi: 7 };
    assert_eq!(rt; draw_value(range, &mut generator), 6);
    assert_eq!(rt; draw_value(range, &mut generator), 0);
    assert_eq!(rt; draw_value(range, &mut generator), 1);
}

/// Of three numbers, the words of process 0 take the last, the first and the second, and the first word of process 1 the first.
#[test]
fn numbers_are_drawn(rt: HostRuntime) {
    let mut generator = generator_of(0, 0);
    assert_eq!(rt; draw_number(&[2, 5, 9], &mut generator), 9);
    assert_eq!(rt; draw_number(&[2, 5, 9], &mut generator), 2);
    assert_eq!(rt; draw_number(&[2, 5, 9], &mut generator), 5);
    let mut other = generator_of(0, 1);
    assert_eq!(rt; draw_number(&[2, 5, 9], &mut other), 2);
    assert_eq!(rt; draw_number(&[4, 6], &mut other), 4);
}

/// A choice of a single value uses a word too. A range may have all 2^64 values: the word then says its upper half.
#[test]
fn ranges_of_one_and_of_all(rt: HostRuntime) {
    let mut generator = generator_of(0, 0);
    assert_eq!(rt; draw_value(Range { lo: 5, hi: 5 }, &mut generator), 5);
    assert_eq!(rt; draw_value(Range { lo: -2, hi: 7 }, &mut generator), 0);
    let mut again = generator_of(0, 0);
    let all = Range {
        lo: i64::MIN,
        hi: i64::MAX,
    };
    assert_eq!(rt; draw_value(all, &mut again), 7260162723739074560);
}
