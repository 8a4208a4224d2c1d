//! The words of a text.
ghost use Rattle.std.specs.Prelude.{◌≡◌, ◌<◌, ◌∷◌, [], length, IfSome, IfNone};
ghost use Rattle.example_tidy.specs.Tidy.{words};

/// The first word of a text, and the text after it.
pub fn next_word(text: &[u8]) -> Option<(&[u8], &[u8])>
    ensures some { IfSome result (λ found. words text.now ≡ found.0.now ∷ words found.1.now) }
    ensures shorter { IfSome result (λ found. length found.1.now < length text.now) }
    ensures none { IfNone result (words text.now ≡ []) }
{
    let mut start = 0;
    for (index, byte) in text.iter().enumerate() {
        if byte.is_ascii_whitespace() {
            if start < index {
                return Some((&text[start..index], &text[index + 1..]));
            }
            start = index + 1;
        }
    }
    if start < text.len() {
        return Some((&text[start..text.len()], &[]));
    }
    None
}
