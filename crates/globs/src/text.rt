ghost use Rattle.std.specs.Prelude.{◌≡◌, [], ◌∷◌, ◌++◌, MatchOption};
ghost use Rattle.std.specs.Str.{chars};

/// The first character of a text, and the text after it.
#[inline]
pub(crate) fn first_and_rest(text: &str) -> Option<(char, &str)>
    ensures { MatchOption result (chars text.now ≡ []) (λ p. chars text.now ≡ p.0 ∷ chars p.1.now) }
{
    let mut characters = text.chars();
    match characters.next() {
        Some(character) => Some((character, characters.as_str())),
        None => None,
    }
}

/// The last character of a text, and the text before it.
#[inline]
pub(crate) fn last_and_front(text: &str) -> Option<(char, &str)>
    ensures { MatchOption result (chars text.now ≡ []) (λ p. chars text.now ≡ chars p.1.now ++ p.0 ∷ []) }
{
    let mut characters = text.chars();
    match characters.next_back() {
        Some(character) => Some((character, characters.as_str())),
        None => None,
    }
}
