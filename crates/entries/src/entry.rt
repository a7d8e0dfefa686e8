use idents::ident::Ident;

// A record number to be entered under an identifier, and whether it was.
#[derive(Clone, Copy)]
pub struct Entry {
    pub id: Ident,
    pub number: u32,
    pub taken: bool,
}
