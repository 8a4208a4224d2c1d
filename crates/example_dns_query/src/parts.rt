//! A text that is cut at a byte.
ghost use Rattle.std.specs.Prelude.{◌≡◌, ◌∷◌};
ghost use Rattle.std.specs.Option.{option_copied};
ghost use Rattle.example_dns_query.specs.Parts.{parts, parts_left};

/// The first part of a text, and what follows the separator, if there is one.
pub fn first_part(text: &[u8], separator: u8) -> (&[u8], Option<&[u8]>)
    ensures { parts separator text.now ≡ result.0.now ∷ parts_left separator (option_copied result.1) }
{
    for (index, byte) in text.iter().enumerate() {
        if *byte == separator {
            return (&text[..index], Some(&text[index + 1..]));
        }
    }
    (text, None)
}
