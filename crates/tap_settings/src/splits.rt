//! Texts, cut at the first of a kind.

ghost use Rattle.std.specs.Prelude.{◌≡◌, ◌<◌, ◌++◌, ◌∷◌, MatchOption};
ghost use Rattle.tap_settings.specs.inner.Reading.{Lacks};

/// What stands before the first such character, and what stands behind it; none exactly where there
/// is no such character.
pub fn split_at_first(text: &str, mark: char) -> Option<(&str, &str)>
    requires { mark < 128 }
    ensures { MatchOption result (Lacks mark text.now) (λ x. (text.now ≡ x.0.now ++ mark ∷ x.1.now) × Lacks mark x.0.now) }
{
    text.split_once(mark)
}
