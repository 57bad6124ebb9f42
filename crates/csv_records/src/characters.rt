//! Splits the first character off a text.

ghost use Rattle.std.specs.Prelude.{◌≡◌, ◌<◌, ◌++◌, ◌∷◌, [], IfNone, IfSome, chars, encode_utf8, length};
ghost use Rattle.csv_records.specs.Number.{without_first};

/// The first character of `text`, and the text after this character. `None` if `text` is empty.
pub fn split_first(text: &str) -> Option<(char, &str)>
    ensures some { IfSome result (λ parts. text.now ≡ encode_utf8 parts.0 ++ parts.1.now) }
    ensures characters { IfSome result (λ parts. chars text.now ≡ parts.0 ∷ chars parts.1.now) }
    ensures rest { IfSome result (λ parts. parts.1.now ≡ without_first text.now) }
    ensures shorter { IfSome result (λ parts. length parts.1.now < length text.now) }
    ensures none { IfNone result (text.now ≡ []) }
    ensures no_characters { IfNone result (chars text.now ≡ []) }
{
    let mut characters = text.chars();
    let c = characters.next()?;
    Some((c, characters.as_str()))
}
