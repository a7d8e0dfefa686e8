// An index in front of another: it keeps the low orders without a namespace itself.
#![tactic(auto)]

pub mod front;

#[cfg(test)]
mod tests {
    use crate::front::{Front, LOW};
    use idents::ident::Ident;
    use index::map::TermIdToIdxMap;
    use index::table::term_table;

    fn plain(order: u32) -> Ident {
        Ident {
            namespace: None,
            order,
        }
    }

    #[test]
    fn low_orders_always_have_room(rt: HostRuntime) {
        let mut orders = [Some(7); LOW];
        let mut table = term_table(&mut [], 5);
        let mut front = Front::new(&mut orders, &mut table);
        assert_eq!(rt; front.get_term(plain(4095)), None);
        assert!(rt; front.room(plain(4095)));
        assert!(rt; !front.room(plain(4096)));
        assert_eq!(rt; front.register_term(plain(4095), 1).ok(), Some(None));
        assert_eq!(rt; front.register_term(plain(4095), 2).ok(), Some(Some(1)));
        assert!(rt; front.register_term(plain(4096), 3).is_err());
        assert_eq!(rt; front.get_term(plain(4095)), Some(2));
        assert_eq!(rt; front.held(), 1);
    }
}
