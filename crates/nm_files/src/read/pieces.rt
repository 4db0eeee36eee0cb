//! Pieces of a text: lines between newlines, and fields between spaces.
ghost use Rattle.std.specs.Prelude.{◌≡◌, ◌==◌, ◌∷◌, ◌<◌, position, length, IfSome, IfNone};
ghost use Rattle.std.specs.Option.{option_copied};
ghost use Rattle.nm_files.specs.Lines.{pieces, further};

/// Returns the position of the first byte that is c.
fn first_at(text: &[u8], c: u8) -> Option<usize>
    ensures { result ≡ position (λ b. b == c) text.now }
{
    text.iter().position(|b| *b == c)
}

/// Returns the piece before the first byte that is c, and what follows that byte, if there is one.
pub fn cut(text: &[u8], c: u8) -> (&[u8], Option<&[u8]>)
    ensures pieces { pieces c text.now ≡ result.0.now ∷ further c (option_copied result.1) }
    ensures shorter { IfSome result.1 (λ rest. length rest.now < length text.now) }
    ensures whole { IfNone result.1 (result.0.now ≡ text.now) }
{
    match first_at(text, c) {
        None => (text, None),
        Some(at) => (&text[..at], Some(&text[at + 1..])),
    }
}
