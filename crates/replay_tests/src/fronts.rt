//! A trace that is cut at a byte: it is none, unless the line feed of its last line alone is wanting.

use super::alternating_bit::{ALTERNATING_BIT, LINES, ONCE};
use super::cases::of_text;
use std::test::Fail;

#[test]
fn a_trace_is_cut_at_a_byte(rt: HostRuntime) -> Result<(), Fail> {
    let mut text = String::new(rt.alloc());
    for line in LINES {
        text.push_str(line)?;
        text.push_str("\n")?;
    }
    let bytes = text.as_bytes();
    for at in 0..bytes.len() {
        let found = of_text(rt.alloc(), ALTERNATING_BIT, ONCE, &bytes[..at])?;
        assert_eq!(rt;
            found.is_ok(),
            at + 1 == bytes.len(),
            "the first {at} bytes"
        );
    }
    Ok(())
}
