// The fields of a record's body: big-endian numbers, credentials and new keys.
// What is right is defined in specs/, after document 01, "Call records and the player".
#![tactic(auto)]

ghost use Rattle.std.specs.Prelude.{◌≡◌, ◌+◌, ◌≤◌, ◌<◌, length, drop};
ghost use Rattle.fields.specs.Bytes.{number, zeroed};
ghost use Rattle.fields.specs.Fields.{credential, new_key};

use card::Credential;

// A call record that cannot be taken: refusal 13.
#[derive(Drop)]
#[derive(Clone, Copy)]
pub struct BadRecord;

// ---- numbers and filler

// The number of the two bytes at a place.
pub fn two(bytes: &[u8], at: usize) -> u16
    requires { at + 2 ≤ length bytes.now }
    ensures { result ≡ number 2 (drop at bytes.now) }
{
    u16::from_be_bytes([bytes[at], bytes[at + 1]])
}

// The number of the four bytes at a place.
pub fn four(bytes: &[u8], at: usize) -> u32
    requires { at + 4 ≤ length bytes.now }
    ensures { result ≡ number 4 (drop at bytes.now) }
{
    u32::from_be_bytes([bytes[at], bytes[at + 1], bytes[at + 2], bytes[at + 3]])
}

// The number of the eight bytes at a place.
pub fn eight(bytes: &[u8], at: usize) -> u64
    requires { at + 8 ≤ length bytes.now }
    ensures { result ≡ number 8 (drop at bytes.now) }
{
    u64::from_be_bytes([
        bytes[at],
        bytes[at + 1],
        bytes[at + 2],
        bytes[at + 3],
        bytes[at + 4],
        bytes[at + 5],
        bytes[at + 6],
        bytes[at + 7],
    ])
}

// The `count` bytes at a place are 0.
fn zeroed(bytes: &[u8], at: usize, count: usize) -> bool
    requires { at + count ≤ length bytes.now }
    ensures { result ≡ zeroed count (drop at bytes.now) }
{
    bytes[at..at + count].iter().all(|byte| *byte == 0)
}

// ---- credentials and new keys

// The credential of the 17 bytes at a place.
pub fn credential(bytes: &[u8], at: usize) -> Result<Credential, BadRecord>
    requires { at + 17 ≤ length bytes.now }
    ensures { result ≡ credential (drop at bytes.now) }
{
    match bytes[at] {
        0 if zeroed(bytes, at + 1, 16) => Ok(Credential::Nothing),
        1 if zeroed(bytes, at + 3, 14) => Ok(Credential::Reference(two(bytes, at + 1))),
        2 => Ok(Credential::Key(eight(bytes, at + 1), eight(bytes, at + 9))),
        _ => Err(BadRecord),
    }
}

// The new key, or none, of the 17 bytes at a place.
pub fn new_key(bytes: &[u8], at: usize) -> Result<Option<(u64, u64)>, BadRecord>
    requires { at + 17 ≤ length bytes.now }
    ensures { result ≡ new_key (drop at bytes.now) }
{
    match bytes[at] {
        0 if zeroed(bytes, at + 1, 16) => Ok(None),
        1 => Ok(Some((eight(bytes, at + 1), eight(bytes, at + 9)))),
        _ => Err(BadRecord),
    }
}
