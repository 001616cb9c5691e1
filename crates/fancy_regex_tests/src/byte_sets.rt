//! Sets of bytes.

use fancy_regex::{ByteSet, RegexOptionsBuilder};

/// A byte, and whether it is a member.
static BYTES: [(u8, bool); 7] = [
    (b'0', true),
    (b'9', true),
    (0x80, true),
    (0xFF, true),
    (b'/', false),
    (b':', false),
    (0x7F, false),
];

/// Whether a set and its table tell of each byte what they have to.
fn tells_members(set: &ByteSet) -> bool {
    let table = set.table();
    for (byte, is_member) in BYTES.iter() {
        if set.contains(*byte) != *is_member || table[usize::from(*byte)] != *is_member {
            return false;
        }
    }
    true
}

#[test]
fn a_set_tells_its_members(rt: HostRuntime) {
    match RegexOptionsBuilder::new().start_bytes(rt.alloc(), "[0-9]") {
        Ok(Some(set)) => assert!(rt; tells_members(&set)),
        _ => panic!(rt; "no start bytes"),
    }
}
