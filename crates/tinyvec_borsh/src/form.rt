//! The bytes of a value in the Borsh form.
ghost use Rattle.std.specs.Prelude.{ℕ, List};
ghost use Rattle.tinyvec_borsh.specs.Code.{IsCode};

/// A type whose values have a content, which is spelled by bytes.
pub trait BorshForm {
    // What of a value is written. Two values of the same content are written alike.
    ghost Content: { Type 0 };

    ghost content_of: { Self → Content };

    // The bytes spell the content.
    ghost Spells: { Content → List ℕ → Type 0 };

    // A value of the type has this content.
    ghost Fits: { Content → Type 0 };

    // Bytes tell what they spell, and where it ends.
    ghost code: { IsCode Spells };

    // What fits has a spelling.
    ghost spelled: { (c : Content) → Fits c → (bytes : List ℕ) × Spells c bytes };
}
