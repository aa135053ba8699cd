//! Bytes that are the key of a text and a number, and bytes that are none.
use kt_base::Kind;
use kt_key::decode_key;
use std::alloc::Global;

/// Bytes, and whether they are such a key.
const KEYS: [(&[u8], bool); 4] = [
    (&[0x61, 0, 1, 0, 0, 0], true),
    (&[0x61, 0, 2, 0, 0, 0], false),
    (&[0x61, 0, 0], false),
    (&[0x61, 0, 0, 1, 1], false),
];

fn is_told(alloc: Global, bytes: &[u8], is_key: bool) -> bool {
    match decode_key(alloc, &[Kind::String, Kind::Int8], bytes) {
        Ok(row) => row.is_some() == is_key,
        Err(_) => false,
    }
}

#[test]
fn keys_are_read(rt: HostRuntime) {
    for &(bytes, is_key) in &KEYS {
        assert!(rt; is_told(rt.alloc(), bytes, is_key));
    }
}
