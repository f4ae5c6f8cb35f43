// Plays call records on lent tables: decodes each, performs it, and writes its line.
#![tactic(auto)]

ghost use Rattle.std.specs.Prelude.{◌+◌, ◌≤◌, ◌<◌, length};
ghost use Rattle.card.specs.Lent.{SameTables};
ghost use Rattle.lines.specs.Lines.{line, line_room};
ghost use Rattle.input.specs.Play.{played, turn, play};
ghost use Rattle.input.specs.Played.{Writes, Turns, Plays};

use card::{Call, LentCard, MOST_BLOCKS, Port};
use input::{Part, Stop, Turned};

// One call performed, and its line written.
fn play_call(
    card: &mut LentCard,
    ordinal: u64,
    kind: u8,
    port: Port,
    call: Call,
    payload: &[u8],
    to: &mut [u8],
    at: usize,
) -> usize
    requires { at + line_room ≤ length to.old }
    ensures same { SameTables card.old card.new }
    ensures writes { Writes (λ c. played port c call payload.now) (line ordinal kind call) line_room card.old card.new to.old at to.new result }
{
    let mut out = [0u8; 512];
    let mut places = [0u16; MOST_BLOCKS as usize];
    let answer = controller::perform(card, port, call, payload, &mut out, &mut places);
    lines::put_line(to, at, ordinal, kind, call, answer, &out, &places)
}

// The record of an input that starts at a place, played; or why there is none. The kinds of both ports are taken.
fn play_turn(
    card: &mut LentCard,
    ordinal: u64,
    input: &[u8],
    from: usize,
    to: &mut [u8],
    at: usize,
) -> Turned
    requires in_input { from ≤ length input.now }
    requires has_room { at + line_room ≤ length to.old }
    ensures same { SameTables card.old card.new }
    ensures turns { Turns (turn ordinal) line_room card.old card.new input.now from to.old at to.new result }
{
    match input::find(Port::Service, input, from) {
        Err(stop) => Turned {
            stop: Some(stop),
            from,
            at,
        },
        Ok(r) => {
            let payload = &input[r.payload..r.next];
            let behind = play_call(card, ordinal, r.kind, r.port, r.call, payload, to, at);
            Turned {
                stop: None,
                from: r.next,
                at: behind,
            }
        }
    }
}

// Plays an input, record after record, as long as there is room for a line. `records` have been played before it.
pub fn play(card: &mut LentCard, records: u64, input: &[u8], output: &mut [u8]) -> Part
    requires { records < 9223372036854775808 }
    ensures same { SameTables card.old card.new }
    ensures plays { Plays (play records) card.old card.new input.now output.old output.new result }
{
    let mut count = records;
    let mut from = 0;
    let mut at = 0;
    // How many records the input holds is not known at the start. `batch` has the loop with another turn: a closure for it would be lent all four, and is no plainer.
    loop {
        if output.len() - at < 2048 {
            return Part {
                stop: Stop::Full,
                records: count,
                read: from,
                written: at,
            };
        }
        let turned = play_turn(card, count + 1, input, from, output, at);
        from = turned.from;
        at = turned.at;
        if let Some(stop) = turned.stop {
            return Part {
                stop,
                records: count,
                read: from,
                written: at,
            };
        }
        count += 1;
    }
}
