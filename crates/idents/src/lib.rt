// Identifiers as an index takes them, and as keys of a slot table.
#![tactic(auto)]

pub mod ident;
pub mod ident_key;

#[cfg(test)]
mod tests {
    use crate::ident::Ident;
    use keys::key::Key;

    fn ident(namespace: Option<u32>, order: u32) -> Ident {
        Ident { namespace, order }
    }

    #[test]
    fn namespaces_tell_identifiers_apart(rt: HostRuntime) {
        assert!(rt; ident(None, 3).is_proper());
        assert!(rt; ident(Some(16777215), 3).is_proper());
        assert!(rt; !ident(Some(16777216), 3).is_proper());
        assert!(rt; ident(Some(0), 3).same(ident(Some(0), 3)));
        assert!(rt; !ident(Some(0), 3).same(ident(None, 3)));
        assert!(rt; !ident(Some(0), 3).same(ident(Some(1), 3)));
        assert!(rt; ident(Some(0), 3).hash_code(5) != ident(None, 3).hash_code(5));
    }
}
