// Plays the call records of standard input on a fresh card, and writes their lines to standard output.
// Both pass through buffers, so that no record takes a system call of its own.
#![tactic(auto)]

ghost use Rattle.std.specs.Prelude.{◌-◌, ◌≤◌, ◌<◌, true, ◌≡◌, length, take, drop};
ghost use Rattle.card.specs.Lent.{SameTables, lent_card};
ghost use Rattle.card.specs.Trials.{player_card};
ghost use Rattle.lines.specs.Lines.{line_room, last_line};
ghost use Rattle.lines.specs.Written.{Written};
ghost use Rattle.input.specs.Play.{end_number};
ghost use Rattle.cardplay.specs.InputBuffer.{record_room, GrownIs};
ghost use Rattle.cardplay.specs.Progress.{is_full, needs_input, ReadIs, PlaysPiece, Progresses};
ghost use Rattle.cardplay.specs.Pieces.{BlankTables, PlaysInPieces};

use card::LentCard;
use input::Stop;
use std::io::{Read, Write};

// Moves the bytes from a place to the end of a buffer's filled part to the front. Returns how many there are.
fn keep(buffer: &mut [u8], from: usize, filled: usize) -> usize
    requires fact_1 { from ≤ filled }
    requires fact_2 { filled ≤ length buffer.old }
    ensures { Written buffer.old 0 (take (filled - from) (drop from buffer.old)) buffer.new result }
{
    buffer.copy_within(from..filled, 0);
    filled - from
}

// Reads once into the buffer behind its filled part. Returns where that part then ends: where it did at the end of the input,
// and where nothing could be read.
fn fill(from: &mut impl Read, buffer: &mut [u8], filled: usize) -> usize
    requires { filled < length buffer.old }
    ensures { GrownIs buffer.old filled buffer.new result }
{
    let rest = &mut buffer[filled..];
    match from.read(rest) {
        Ok(got) => filled + got,
        Err(_) => filled,
    }
}

// What a play of the buffer's filled part comes to.
#[derive(Drop)]
#[derive(Clone, Copy)]
struct Piece {
    stop: Stop,
    records: u64,
    // How many bytes are left.
    filled: usize,
    // How long the lines are.
    written: usize,
}

// Plays the filled part of the buffer, and moves what is left of it to the front.
fn play_some(
    card: &mut LentCard,
    records: u64,
    buffer: &mut [u8],
    filled: usize,
    output: &mut [u8],
) -> Piece
    requires few_records { records < 9223372036854775808 }
    requires in_buffer { filled ≤ length buffer.old }
    ensures same { SameTables card.old card.new }
    ensures plays { PlaysPiece records card.old card.new buffer.old buffer.new filled output.old output.new result }
{
    let part = player::play(card, records, &buffer[..filled], output);
    let left = keep(buffer, part.read, filled);
    Piece {
        stop: part.stop,
        records: part.records,
        filled: left,
        written: part.written,
    }
}

// The play stopped for want of room for lines: there may be records left in the buffer.
fn is_full(stop: Stop) -> bool
    ensures { result ≡ is_full stop }
{
    matches!(stop, Stop::Full)
}

// The play stopped for want of input.
fn needs_input(stop: Stop) -> bool
    ensures { result ≡ needs_input stop }
{
    matches!(stop, Stop::Ended | Stop::Short)
}

// Reads on if asked to.
fn read_on(from: &mut impl Read, wanted: bool, buffer: &mut [u8], filled: usize) -> usize
    requires fact_1 { filled ≤ length buffer.old }
    requires fact_2 { (wanted ≡ true → filled < length buffer.old) }
    ensures { ReadIs wanted buffer.old filled buffer.new result }
{
    if wanted {
        fill(from, buffer, filled)
    } else {
        filled
    }
}

// How far the input is played.
#[derive(Drop)]
#[derive(Clone, Copy)]
struct Progress {
    stop: Stop,
    records: u64,
    filled: usize,
    // The lines could be written.
    wrote: bool,
    // There is more to play.
    on: bool,
}

// Plays the filled part of the buffer, writes the lines, and reads on where the play stopped for want of input.
fn play_on(
    from: &mut impl Read,
    to: &mut impl Write,
    card: &mut LentCard,
    records: u64,
    buffer: &mut [u8],
    filled: usize,
    output: &mut [u8],
) -> Progress
    requires few_records { records < 9223372036854775808 }
    requires in_buffer { filled ≤ length buffer.old }
    requires has_room { record_room ≤ length buffer.old }
    ensures same { SameTables card.old card.new }
    ensures progresses { Progresses records card.old card.new buffer.old buffer.new filled output.old output.new result }
{
    let played = play_some(card, records, buffer, filled, output);
    let stop = played.stop;
    let left = played.filled;
    let written = played.written;
    let wrote = to.write_all(&output[..written]).is_ok();
    let end = read_on(from, wrote & needs_input(stop), buffer, left);
    let on = wrote & (is_full(stop) | (left < end));
    Progress {
        stop,
        records: played.records,
        filled: end,
        wrote,
        on,
    }
}

// Plays what is read to its end, and writes the lines. A proved loop has to end, and nothing says that an input does:
// so this one also ends after 2^64 - 1 turns or 2^63 records, which no run reaches.
fn play_all(from: &mut impl Read, to: &mut impl Write, card: &mut LentCard) -> Progress
    ensures same { SameTables card.old card.new }
    ensures plays { PlaysInPieces (lent_card card.old) (lent_card card.new) result }
{
    let mut buffer = [0u8; 65536];
    let mut output = [0u8; 65536];
    let mut progress = Progress {
        stop: Stop::Ended,
        records: 0,
        filled: 0,
        wrote: true,
        on: true,
    };
    for _turn in 0..u64::MAX {
        if !progress.on | (9223372036854775808 <= progress.records) {
            break;
        }
        progress = play_on(
            from,
            to,
            card,
            progress.records,
            &mut buffer,
            progress.filled,
            &mut output,
        );
    }
    progress
}

// Formats a card of N 16, R 1 and B 512 on blank tables, and plays what is read on it.
// What record it had before FORMAT does not matter.
fn play_fresh(from: &mut impl Read, to: &mut impl Write, card: &mut LentCard) -> Progress
    requires { BlankTables (lent_card card.old) }
    ensures same { SameTables card.old card.new }
    ensures plays { PlaysInPieces player_card (lent_card card.new) result }
{
    // It is not refused: the tables have these lengths.
    let _ = format::format(card, 16, 1, 512);
    play_all(from, to, card)
}

// The number of the last line.
fn end_number(stop: Stop) -> u64
    ensures { result ≡ end_number stop }
{
    if matches!(stop, Stop::Ended) { 0 } else { 13 }
}

// Puts the last line at a buffer's front. Returns how long it is.
fn put_end(output: &mut [u8], records: u64, stop: Stop) -> usize
    requires { line_room ≤ length output.old }
    ensures { Written output.old 0 (last_line records (end_number stop)) output.new result }
{
    lines::put_last_line(output, 0, records, end_number(stop))
}

// Writes the last line, unless the lines before it could not be written.
fn write_end(to: &mut impl Write, end: Progress) {
    let stop = end.stop;
    if end.wrote {
        let mut output = [0u8; 2048];
        let last = put_end(&mut output, end.records, stop);
        let _ = to.write_all(&output[..last]);
    }
}

fn main(rt: HostRuntime) {
    let mut to = rt.stdout();
    let mut flags = [0u8; 16];
    let mut keys = [0u64; 64];
    let mut counts = [0u32; 16];
    let mut pointers = [0u32; 32];
    let mut multiplicities = [0u16; 32];
    let mut windows = [0u64; 32];
    let mut contents = [0u8; 8192];
    let mut card = LentCard {
        info: tables::fresh(0, 0, 0),
        flags: &mut flags,
        keys: &mut keys,
        counts: &mut counts,
        pointers: &mut pointers,
        multiplicities: &mut multiplicities,
        windows: &mut windows,
        contents: &mut contents,
    };
    let end = play_fresh(&mut rt.stdin(), &mut to, &mut card);
    write_end(&mut to, end);
}
