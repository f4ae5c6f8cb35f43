// Lines of text in a lent buffer: numbers in decimal with single spaces between.
// Each function writes from a place on and returns the place behind what it wrote. No `Write`, whose contract leaves open what stands before the place.
#![tactic(auto)]

ghost use Rattle.std.specs.Prelude.{◌≡◌, [], ◌∷◌, ◌+◌, ◌*◌, ◌≤◌, length, take};
ghost use Rattle.card.specs.Session.{reported};
ghost use Rattle.card.specs.Calls.{refusal_number};
ghost use Rattle.lines.specs.Lines.{space, decimal, spaced, line, line_room, last_line};
ghost use Rattle.lines.specs.Replied.{BuffersFit, filled_by, values_of, replied};
ghost use Rattle.lines.specs.Written.{Written};

use card::{Answer, Call, Refusal};

pub fn put_byte(to: &mut [u8], at: usize, byte: u8) -> usize
    requires { at + 1 ≤ length to.old }
    ensures { Written to.old at (byte ∷ []) to.new result }
{
    to[at] = byte;
    at + 1
}

// No `Display`: a formatter's contract says nothing of the bytes in a lent buffer.
pub fn put_number(to: &mut [u8], at: usize, n: u64) -> usize
    requires { at + length (decimal n) ≤ length to.old }
    ensures { Written to.old at (decimal n) to.new result }
{
    if n < 10 {
        put_byte(to, at, (48 + n) as u8)
    } else {
        let next = put_number(to, at, n / 10);
        put_byte(to, next, (48 + n % 10) as u8)
    }
}

// A space and a number.
pub fn put_spaced(to: &mut [u8], at: usize, n: u64) -> usize
    requires { at + 21 ≤ length to.old }
    ensures { Written to.old at (space ∷ decimal n) to.new result }
{
    let next = put_byte(to, at, 32);
    put_number(to, next, n)
}

// Each byte of a table as a number behind a space.
pub fn put_bytes(to: &mut [u8], at: usize, values: &[u8]) -> usize
    requires { at + 21 * length values.now ≤ length to.old }
    ensures { Written to.old at (spaced values.now) to.new result }
{
    let mut next = at;
    for byte in values {
        next = put_spaced(to, next, u64::from(*byte));
    }
    next
}

// Each block number of a table behind a space.
// Not one function with a bound `T: Into<u64>`: its contract would need what each element converts to, and is no plainer.
pub fn put_blocks(to: &mut [u8], at: usize, values: &[u16]) -> usize
    requires { at + 21 * length values.now ≤ length to.old }
    ensures { Written to.old at (spaced values.now) to.new result }
{
    let mut next = at;
    for block in values {
        next = put_spaced(to, next, u64::from(*block));
    }
    next
}

// A text as it stands.
pub fn put_text(to: &mut [u8], at: usize, text: &[u8]) -> usize
    requires { at + length text.now ≤ length to.old }
    ensures { Written to.old at text.now to.new result }
{
    let end = at + text.len();
    to[at..end].copy_from_slice(text);
    end
}

// ---- the lines of a player

// The number of a refusal, of document 01 or of a request.
// No plainer by a derive: the numbers are the documents', and each stands here beside its refusal.
pub fn refusal_number(r: Refusal) -> u64
    ensures { result ≡ refusal_number r }
{
    match r {
        Refusal::Misshapen => 1,
        Refusal::Unsound => 2,
        Refusal::NotAllocated => 3,
        Refusal::BadOperand => 4,
        Refusal::NotOpened => 5,
        Refusal::IsRoot => 6,
        Refusal::CannotPoint => 7,
        Refusal::NoPointer => 8,
        Refusal::HasPointers => 9,
        Refusal::TooFewBlocks => 10,
        Refusal::TooFewPlaces => 11,
        Refusal::TimeEnds => 12,
        Refusal::BadRecord => 13,
        Refusal::NoRun => 14,
        Refusal::HasWriteKey => 15,
        Refusal::PriceTooHigh => 16,
    }
}

// Which lent buffer a done call fills.
#[derive(Drop)]
#[derive(Clone, Copy)]
pub enum Filled {
    Neither,
    Bytes,
    Blocks(u8),
}

// READ fills the bytes, ALLOC and ALLOC_CONTIG so many block numbers, and no other call fills either.
pub fn filled_by(call: Call) -> Filled
    ensures { result ≡ filled_by call }
{
    match call {
        Call::Read(_) => Filled::Bytes,
        Call::Alloc(o) => Filled::Blocks(o.count),
        Call::AllocContig(o) => Filled::Blocks(o.count),
        _ => Filled::Neither,
    }
}

// The first so many block numbers of a table, or all.
fn put_first(to: &mut [u8], at: usize, values: &[u16], count: usize) -> usize
    requires { at + 21 * length values.now ≤ length to.old }
    ensures { Written to.old at (spaced (take count values.now)) to.new result }
{
    if count < values.len() {
        put_blocks(to, at, &values[..count])
    } else {
        put_blocks(to, at, values)
    }
}

// The values in the buffer that a done call filled: READ's first 8 bytes, the numbers of ALLOC and ALLOC_CONTIG.
fn put_filled(to: &mut [u8], at: usize, filled: Filled, out: &[u8], places: &[u16]) -> usize
    requires fact_1 { BuffersFit out.now places.now }
    requires fact_2 { at + 1344 ≤ length to.old }
    ensures { Written to.old at (spaced (values_of filled out.now places.now)) to.new result }
{
    match filled {
        Filled::Neither => at,
        Filled::Bytes => put_bytes(to, at, &out[..8]),
        Filled::Blocks(n) => put_first(to, at, places, n as usize),
    }
}

// The answer's number and, if done, its values.
fn put_answer(
    to: &mut [u8],
    at: usize,
    call: Call,
    answer: Answer,
    out: &[u8],
    places: &[u16],
) -> usize
    requires fact_1 { BuffersFit out.now places.now }
    requires fact_2 { at + 1386 ≤ length to.old }
    ensures { Written to.old at (spaced (reported call (replied answer out.now places.now))) to.new result }
{
    match answer {
        Err(r) => put_spaced(to, at, refusal_number(r)),
        Ok(None) => {
            let next = put_spaced(to, at, 0);
            put_filled(to, next, filled_by(call), out, places)
        }
        Ok(Some(v)) => {
            let next = put_spaced(to, at, 0);
            let last = put_spaced(to, next, v);
            put_filled(to, last, filled_by(call), out, places)
        }
    }
}

// The line of one record: its ordinal and kind, and what was answered.
pub fn put_line(
    to: &mut [u8],
    at: usize,
    ordinal: u64,
    kind: u8,
    call: Call,
    answer: Answer,
    out: &[u8],
    places: &[u16],
) -> usize
    requires fact_1 { BuffersFit out.now places.now }
    requires fact_2 { at + line_room ≤ length to.old }
    ensures { Written to.old at (line ordinal kind call (replied answer out.now places.now)) to.new result }
{
    let next = put_number(to, at, ordinal);
    let behind = put_spaced(to, next, kind as u64);
    let last = put_answer(to, behind, call, answer, out, places);
    put_byte(to, last, 10)
}

// The last line: the records before the end or the refused one, then 0 or 13.
pub fn put_last_line(to: &mut [u8], at: usize, records: u64, number: u64) -> usize
    requires { at + line_room ≤ length to.old }
    ensures { Written to.old at (last_line records number) to.new result }
{
    let next = put_text(to, at, b"end");
    let behind = put_spaced(to, next, records);
    let last = put_spaced(to, behind, number);
    put_byte(to, last, 10)
}
