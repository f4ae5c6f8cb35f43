// An input of call records: the record that starts at a place of it, and how far a play of it has come.
#![tactic(auto)]

ghost use Rattle.std.specs.Prelude.{◌≤◌, length, ◌≡◌};
ghost use Rattle.input.specs.Found.{FoundIs};
ghost use Rattle.input.specs.declared.Stop.TheVariants.{Refused};

use card::{Call, Port};
use fields::BadRecord;

// Why a play of an input stopped. A batch is served by the same turns: what is written is then an answer, not a line.
#[derive(Drop)]
#[derive(Clone, Copy)]
pub enum Stop {
    // The input is at its end.
    Ended,
    // The input ends within a record.
    Short,
    // A record is refused 13.
    Refused,
    // There is no room for another line or answer.
    Full,
}

// A whole record of an input: its call, and where its data and the next record start.
#[derive(Drop)]
#[derive(Clone, Copy)]
pub struct Record {
    pub kind: u8,
    pub port: Port,
    pub call: Call,
    pub payload: usize,
    pub next: usize,
}

// A wrong record stops a play.
impl From<BadRecord> for Stop {
    ghost from_gives = { λ _ stop. stop ≡ Refused };

    fn from(_bad: BadRecord) -> Stop {
        Stop::Refused
    }
}

// The record that starts at a place of an input that arrives at a port, or why there is none.
pub fn find(wire: Port, input: &[u8], from: usize) -> Result<Record, Stop>
    requires { from ≤ length input.now }
    ensures { FoundIs wire input.now from result }
{
    if from == input.len() {
        return Err(Stop::Ended);
    }
    let kind = input[from];
    let start = from + 1;
    let body = &input[start..];
    let Some(length) = lengths::body_length(wire, kind) else {
        return Err(Stop::Refused);
    };
    if body.len() < length {
        return Err(Stop::Short);
    }
    let parsed = records::decode(wire, kind, body);
    let (port, call) = parsed.decoding?;
    Ok(Record {
        kind,
        port,
        call,
        payload: start + parsed.payload,
        next: start + parsed.end,
    })
}

// ---- how far a play has come

// Where a play stands after one turn, and why it stops there: for no reason where the call was made, and its line or its answer written.
#[derive(Drop)]
#[derive(Clone, Copy)]
pub struct Turned {
    pub stop: Option<Stop>,
    pub from: usize,
    pub at: usize,
}

// What a play comes to: why it stopped, the records played, and how far it read and wrote.
#[derive(Drop)]
#[derive(Clone, Copy)]
pub struct Part {
    pub stop: Stop,
    pub records: u64,
    pub read: usize,
    pub written: usize,
}
