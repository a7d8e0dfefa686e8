// Cuts of a text at a byte.
ghost use Rattle.std.specs.Prelude.{◌≡◌};
ghost use Rattle.std.specs.Option.{option_map};
ghost use Rattle.version.specs.Reader.{cut_at};

// What stands before the first such byte, and what after it, if there is one.
pub(crate) fn cut(text: &[u8], mark: u8) -> (&[u8], Option<&[u8]>)
    ensures front { result.0.now ≡ (cut_at mark text.now).0 }
    ensures rest { option_map (λ x. x.now) result.1 ≡ (cut_at mark text.now).1 }
{
    match text.iter().position(|b| *b == mark) {
        Some(i) => (&text[..i], Some(&text[i + 1..])),
        None => (text, None),
    }
}
