// What a call record asks for: the rule in specs/, after document 01, "Call records and the player", and the requests; in proofs/ what it guarantees.
// There is no code here: `records` decodes by this rule.
#![tactic(auto)]

use card::{Call, Port};
use fields::BadRecord;

// What a kind and the bytes behind it hold: the call, and where the bytes beside its operands start and its body ends.
#[derive(Drop)]
#[derive(Clone, Copy)]
pub struct Parsed {
    pub decoding: Result<(Port, Call), BadRecord>,
    pub payload: usize,
    pub end: usize,
}
