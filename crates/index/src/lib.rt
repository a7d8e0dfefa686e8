// What an index of terms is: a trait with its laws; and the slot table as an index.
#![tactic(auto)]

pub mod either;
pub mod map;
pub mod table;

#[cfg(test)]
mod tests {
    use crate::either::{Either, find_term};
    use crate::map::TermIdToIdxMap;
    use crate::table::term_table;
    use idents::ident::Ident;

    #[test]
    fn table_as_an_index(rt: HostRuntime) {
        let mut slots = [None; 1];
        let mut table = term_table(&mut slots, 5);
        let id = Ident {
            namespace: Some(2),
            order: 9,
        };
        let improper = Ident {
            namespace: Some(16777216),
            order: 9,
        };
        assert!(rt; table.register_term(improper, 1).is_err());
        assert!(rt; !table.room(improper));
        assert_eq!(rt; table.register_term(id, 1).ok(), Some(None));
        assert_eq!(rt; table.register_term(id, 2).ok(), Some(Some(1)));
        assert_eq!(rt; table.get_term(id), Some(2));
        assert_eq!(rt; table.get_term(improper), None);
        assert_eq!(rt; table.held(), 1);
        assert!(rt; matches!(find_term(&table, id), Either::Left(2)));
        assert!(rt; find_term(&table, improper).into_result().is_err());
    }
}
