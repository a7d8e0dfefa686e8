// The bytes that identifiers are made of.
ghost use Rattle.std.specs.Prelude.{◌≡◌};
ghost use Rattle.version.specs.Grammar.{every};
ghost use Rattle.version.specs.View.{in_class};

// An enum and no closure for each test: the definitions speak of a class by its name, which a closure has not.
#[derive(Clone, Copy)]
pub enum Class {
    Digits,
    Characters,
}

impl Class {
    fn has(self, b: u8) -> bool
        ensures { result ≡ in_class self b }
    {
        match self {
            Class::Digits => b.is_ascii_digit(),
            Class::Characters => b.is_ascii_alphanumeric() || b == b'-',
        }
    }

    pub(crate) fn holds_all(self, text: &[u8]) -> bool
        ensures { result ≡ every (in_class self) text.now }
    {
        text.iter().all(|b| self.has(*b))
    }
}
