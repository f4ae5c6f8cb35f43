// The kinds of call records: which call and port a byte of kind says, by the port at which it arrives, and the length of its body. The rule stands in
// specs/, after document 01, "Call records and the player", and the requests; in proofs/ what it guarantees of all 256 kinds.
// There is no code here: `lengths` tells kinds by this rule.
#![tactic(auto)]

// The calls that a record may hold.
#[derive(Drop)]
#[derive(Clone, Copy)]
pub enum Name {
    Read,
    Write,
    Alloc,
    Create,
    Delete,
    KeyRead,
    Renew,
    Force,
    Free,
    Tick,
    Audit,
    AllocContig,
    KeyWrite,
    DeleteTree,
}

// The lengths of a call's operands and of its body.
#[derive(Drop)]
#[derive(Clone, Copy)]
pub struct Lengths {
    pub operands: usize,
    pub body: usize,
}
