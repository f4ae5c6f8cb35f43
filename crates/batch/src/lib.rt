// Call records served on lent tables at the price of one audit: each answer goes into a lent buffer.
// What comes of it is what auditing before every call makes of it.
#![tactic(auto)]

ghost use Rattle.std.specs.Prelude.{◌+◌, ◌*◌, ◌≤◌, length, take, drop, ◌≡◌};
ghost use Rattle.card.specs.Lent.{SameTables, lent_card};
ghost use Rattle.card.specs.Soundness.{verdict};
ghost use Rattle.fields.specs.Bytes.{bytes};
ghost use Rattle.lines.specs.Replied.{replied};
ghost use Rattle.lines.specs.Written.{Written};
ghost use Rattle.input.specs.Played.{Writes, Turns, Plays};
ghost use Rattle.serving.specs.Serve.{pairs, filled_bytes, answer_bytes, lent_size, answer_room, served, serve_turn, room_from, serve};

use card::{Answer, Call, Info, LentCard, MOST_BLOCKS, Port, Verdict};
use input::{Part, Stop, Turned};
use lines::Filled;

// ---- the room for an answer

// As many bytes as READ is lent; no other call is lent any.
fn lent_size(info: Info, call: Call) -> usize
    ensures { result ≡ lent_size info.bytes call }
{
    match lines::filled_by(call) {
        Filled::Neither => 0,
        Filled::Bytes => if info.bytes <= 65536 { info.bytes } else { 0 },
        Filled::Blocks(_) => 0,
    }
}

// The room that is kept for the answer to a call.
fn room_of(info: Info, call: Call) -> usize
    ensures { result ≡ answer_room info.bytes call }
{
    match call {
        Call::Read(_) => 1 + lent_size(info, call),
        Call::Alloc(_) => 129,
        Call::AllocContig(_) => 129,
        Call::Delete(_) => 9,
        Call::DeleteTree(_) => 9,
        Call::Free => 9,
        Call::Tick(_) => 9,
        Call::Rent(_) => 9,
        Call::Sweep(_) => 9,
        _ => 1,
    }
}

// ---- the bytes of an answer

// A number in so many bytes, big-endian. No `to_be_bytes`: the width is 1, 2 or 8, by the caller.
fn put_big_endian(to: &mut [u8], at: usize, width: usize, n: u64) -> usize
    requires { at + width ≤ length to.old }
    ensures { Written to.old at (bytes width n) to.new result }
{
    if width == 0 {
        at
    } else {
        let next = put_big_endian(to, at, width - 1, n / 256);
        lines::put_byte(to, next, (n % 256) as u8)
    }
}

// Each number of a table in 2 bytes.
fn put_pairs(to: &mut [u8], at: usize, values: &[u16]) -> usize
    requires { at + 2 * length values.now ≤ length to.old }
    ensures { Written to.old at (pairs values.now) to.new result }
{
    let mut next = at;
    for block in values {
        next = put_big_endian(to, next, 2, u64::from(*block));
    }
    next
}

// The first so many numbers of a table, or all. `lines` has the same of numbers behind spaces: a closure for what is written is no plainer.
fn put_first_pairs(to: &mut [u8], at: usize, values: &[u16], count: usize) -> usize
    requires { at + length (pairs (take count values.now)) ≤ length to.old }
    ensures { Written to.old at (pairs (take count values.now)) to.new result }
{
    if count < values.len() {
        put_pairs(to, at, &values[..count])
    } else {
        put_pairs(to, at, values)
    }
}

// What a done call left in a buffer: READ's bytes, which stand here already, or the numbers of ALLOC and ALLOC_CONTIG.
fn put_filled_bytes(to: &mut [u8], at: usize, filled: Filled, size: usize, places: &[u16]) -> usize
    requires fact_1 { at + size ≤ length to.old }
    requires fact_2 { at + length (filled_bytes filled (take size (drop at to.old)) places.now) ≤ length to.old }
    ensures { Written to.old at (filled_bytes filled (take size (drop at to.old)) places.now) to.new result }
{
    match filled {
        Filled::Neither => at,
        Filled::Bytes => at + size,
        Filled::Blocks(n) => put_first_pairs(to, at, places, n as usize),
    }
}

// The answer to a call. READ's bytes stand behind the place of the number already.
fn put_answer_bytes(
    to: &mut [u8],
    at: usize,
    call: Call,
    answer: Answer,
    size: usize,
    places: &[u16],
) -> usize
    requires fact_1 { at + 1 + size ≤ length to.old }
    requires fact_2 { at + length (answer_bytes call (replied answer (take size (drop (at + 1) to.old)) places.now)) ≤ length to.old }
    ensures { Written to.old at (answer_bytes call (replied answer (take size (drop (at + 1) to.old)) places.now)) to.new result }
{
    match answer {
        Err(r) => put_big_endian(to, at, 1, lines::refusal_number(r)),
        Ok(None) => {
            let next = put_big_endian(to, at, 1, 0);
            put_filled_bytes(to, next, lines::filled_by(call), size, places)
        }
        Ok(Some(v)) => {
            let next = put_big_endian(to, at, 1, 0);
            put_big_endian(to, next, 8, v)
        }
    }
}

// ---- one record

// One call on a card of which the verdict is known, and its answer. READ is lent the part of the buffer where its bytes belong.
fn answer_call(
    found: Verdict,
    card: &mut LentCard,
    port: Port,
    call: Call,
    payload: &[u8],
    to: &mut [u8],
    at: usize,
) -> usize
    requires judged { found ≡ verdict (lent_card card.old) }
    requires has_room { at + answer_room card.old.info.bytes call ≤ length to.old }
    ensures same { SameTables card.old card.new }
    ensures writes { Writes (λ c. served port c call payload.now) (answer_bytes call) (answer_room card.old.info.bytes call) card.old card.new to.old at to.new result }
{
    let mut places = [0u16; MOST_BLOCKS as usize];
    let size = lent_size(card.info, call);
    let start = at + 1;
    let end = start + size;
    let answer = controller::perform_judged(
        found,
        card,
        port,
        call,
        payload,
        &mut to[start..end],
        &mut places,
    );
    put_answer_bytes(to, at, call, answer, size, &places)
}

// The record of an input that starts at a place, served; or why it is not.
fn serve_turn(
    wire: Port,
    found: Verdict,
    card: &mut LentCard,
    input: &[u8],
    from: usize,
    to: &mut [u8],
    at: usize,
) -> Turned
    requires judged { found ≡ verdict (lent_card card.old) }
    requires in_input { from ≤ length input.now }
    requires in_output { at ≤ length to.old }
    ensures same { SameTables card.old card.new }
    ensures turns { Turns (serve_turn wire (room_from to.old at)) (room_from to.old at) card.old card.new input.now from to.old at to.new result }
{
    match input::find(wire, input, from) {
        Err(stop) => Turned {
            stop: Some(stop),
            from,
            at,
        },
        Ok(r) => {
            let room = room_of(card.info, r.call);
            if to.len() - at < room {
                return Turned {
                    stop: Some(Stop::Full),
                    from,
                    at,
                };
            }
            let payload = &input[r.payload..r.next];
            let behind = answer_call(found, card, r.port, r.call, payload, to, at);
            Turned {
                stop: None,
                from: r.next,
                at: behind,
            }
        }
    }
}

// ---- an input

// Serves an input that arrives at a port, record after record, as long as there is room for the answer. The card is audited once.
pub fn serve(wire: Port, card: &mut LentCard, input: &[u8], answers: &mut [u8]) -> Part
    ensures same { SameTables card.old card.new }
    ensures plays { Plays (serve wire) card.old card.new input.now answers.old answers.new result }
{
    let found = audit::audit(card.shared());
    let mut count = 0;
    let mut from = 0;
    let mut at = 0;
    // How many records the input holds is not known at the start.
    loop {
        let turned = serve_turn(wire, found, card, input, from, answers, at);
        from = turned.from;
        at = turned.at;
        if let Some(stop) = turned.stop {
            return Part {
                stop,
                records: count,
                read: from,
                written: at,
            };
        }
        count += 1;
    }
}
