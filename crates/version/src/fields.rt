// Identifiers with dots between them.
ghost use Rattle.std.specs.Prelude.{◌≡◌};
ghost use Rattle.version.specs.Grammar.{every};
ghost use Rattle.version.specs.Reader.{fields_in};
ghost use Rattle.version.specs.View.{taken_in};

use crate::bytes::Class;
use crate::number::is_numeral;

// An enum, as the classes of bytes are, so that the definitions can name the part.
#[derive(Clone, Copy)]
pub enum Part {
    PreRelease,
    Build,
}

impl Part {
    // A number of a pre-release has no leading zeros; build metadata may have them.
    fn takes(self, field: &[u8]) -> bool
        ensures { result ≡ taken_in self field.now }
    {
        match self {
            Part::PreRelease => {
                is_numeral(field)
                    || (Class::Characters.holds_all(field) && !Class::Digits.holds_all(field))
            }
            Part::Build => !field.is_empty() && Class::Characters.holds_all(field),
        }
    }

    // Each field of the text is one that the part takes. No text is fine.
    pub(crate) fn takes_all(self, text: Option<&[u8]>) -> bool
        ensures { result ≡ every (taken_in self) (fields_in text.entry) }
    {
        match text {
            None => true,
            Some(t) => t.split(|b| *b == b'.').all(|field| self.takes(field)),
        }
    }
}
