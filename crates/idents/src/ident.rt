ghost use Rattle.std.specs.Prelude.{◌≡◌};
ghost use Rattle.idents.specs.Idents.{proper_ident};

// An identifier as an index takes it: the number of its namespace, or none, and its order.
#[derive(Clone, Copy, PartialEq, Eq, Debug)]
pub struct Ident {
    pub namespace: Option<u32>,
    pub order: u32,
}

impl Ident {
    // Whether an index takes it at all: a namespace's number is below 16,777,216.
    pub fn is_proper(self) -> bool
        ensures { result ≡ proper_ident self }
    {
        self.namespace.is_none_or(|n| n < 16777216)
    }
}
