// Kinds of keys: an equality and a seeded hash; numbers of 32 and 64 bits.
#![tactic(auto)]

pub mod key;
pub mod mix;
pub mod u32_key;
pub mod u64_key;

#[cfg(test)]
mod tests {
    use crate::key::Key;
    use crate::mix::mix;

    #[test]
    fn equal_numbers_hash_alike(rt: HostRuntime) {
        assert_eq!(rt; mix(1, 2), 5065689620389249189);
        assert_eq!(rt; 7u32.hash_code(1), mix(1, 7));
        assert_eq!(rt; 7u64.hash_code(1), mix(1, 7));
        assert!(rt; 7u64.same(7));
        assert!(rt; !7u32.same(8));
    }
}
