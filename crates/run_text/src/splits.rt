//! Bytes, cut at the first of a kind.

ghost use Rattle.std.specs.Prelude.{◌≡◌, ◌++◌, ◌∷◌, MatchOption};
ghost use Rattle.run_text.specs.ScheduleText.{Lacks};

/// What stands before the first such byte, and what stands behind it; none exactly where there is no
/// such byte.
pub fn split_at_first(text: &[u8], byte: u8) -> Option<(&[u8], &[u8])>
    ensures { MatchOption result (Lacks byte text.now) (λ x. (text.now ≡ x.0.now ++ byte ∷ x.1.now) × Lacks byte x.0.now) }
{
    for at in 0..text.len() {
        if text[at] == byte {
            return Some((&text[..at], &text[at + 1..]));
        }
    }
    None
}
