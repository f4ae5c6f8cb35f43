// The first list of the reach report: the blocks within reach of some keys, found by one walk along the pointers.
#![tactic(auto)]

ghost use Rattle.std.specs.Prelude.{◌≡◌, ◌+◌, ◌*◌, ◌≤◌, ◌<◌, length, get_or, replicate};
ghost use Rattle.card.specs.Card.{Card};
ghost use Rattle.card.specs.Contents.{overwrite};
ghost use Rattle.card.specs.Lent.{shared_card};
ghost use Rattle.card.specs.SoundCard.{SoundCard};
ghost use Rattle.card.specs.Reach.{key_presented};
ghost use Rattle.report.specs.Report.{given, bad_keys, reach_report};
ghost use Rattle.report.specs.Reporting.{reach_sound, Reports};
ghost use Rattle.walks.specs.Walk.{marked_below, NoneReached};
ghost use Rattle.reach.specs.Within.{StandingOf, Begun, Within};

use card::{Answer, Mode, Refusal, SharedCard, Verdict};
use walks::{Direction, Reached};

// How many words 64 keys have.
const MOST_WORDS: usize = 128;

// ---- keys

// The words make no whole number of keys, or more than 64.
pub fn bad_keys(words: &[u64]) -> bool
    ensures { result ≡ bad_keys words.now }
{
    let length = words.len();
    (length % 2 != 0) | (MOST_WORDS < length)
}

// The key is one of those given.
fn given(words: &[u64], high: u64, low: u64) -> bool
    ensures { result ≡ given words.now high low }
{
    for key in 0..words.len() / 2 {
        if (high == words[2 * key]) & (low == words[2 * key + 1]) {
            return true;
        }
    }
    false
}

// The block, of which this is the flags byte, has a key for the mode, and that key is given.
fn key_given(flag: u8, keys: &[u64], words: &[u64], mode: Mode, block: usize) -> bool
    requires { 4 * block + 4 ≤ length keys.now }
    ensures { (c : Card) → c.keys ≡ keys.now → get_or c.public.flags block 0 ≡ flag → result ≡ key_presented (given words.now) c mode block }
{
    if !flags::has_key(flag, mode) {
        return false;
    }
    match mode {
        Mode::Reading => given(words, keys[4 * block], keys[4 * block + 1]),
        Mode::Writing => given(words, keys[4 * block + 2], keys[4 * block + 3]),
    }
}

// ---- where the walk starts

// What keys and windows say of a block by itself.
#[derive(Drop)]
#[derive(Clone, Copy)]
struct Standing {
    shut: u8,
    within: bool,
}

// 1 for a sealed block, else 0; and whether the block is within reach whatever points to it.
fn look_at(card: SharedCard, words: &[u64], block: usize) -> Standing
    requires sound_card { SoundCard (shared_card card) }
    requires block_lt_blocks { block < card.info.blocks }
    ensures { StandingOf words.now (shared_card card.entry) block result }
{
    let flag = card.flags[block];
    let read = key_given(flag, card.keys, words, Mode::Reading, block);
    let write = key_given(flag, card.keys, words, Mode::Writing, block);
    let both = flags::has_key(flag, Mode::Reading) & flags::has_key(flag, Mode::Writing);
    let sealed = both & (!read & !write);
    let open = access::window_open(card.info, card.windows, Mode::Reading, block)
        | access::window_open(card.info, card.windows, Mode::Writing, block);
    let root = (block < card.info.roots) & !sealed;
    Standing {
        shut: sealed as u8,
        within: flags::allocated(flag) & (root | ((read | write) | open)),
    }
}

// Each sealed block is shut; each that is within reach by itself is marked and queued.
fn begin(card: SharedCard, words: &[u64], shut: &mut [u8; 4096], reached: &mut Reached)
    requires sound_card { SoundCard (shared_card card) }
    requires shut_value { shut.old ≡ replicate 4096 0 }
    requires none_reached { NoneReached reached.old }
    ensures { Begun words.now (shared_card card.entry) card.entry.info.blocks shut.new reached.new.marks reached.new.queue reached.new.count }
{
    for block in 0..card.info.blocks {
        let found = look_at(card, words, block);
        shut[block] = found.shut;
        if found.within {
            reached.enter(block as u16);
        }
    }
}

// ---- the walk

// The blocks within reach of the given keys are marked, and the sealed ones shut.
pub fn mark_within(card: SharedCard, words: &[u64], shut: &mut [u8; 4096], reached: &mut Reached)
    requires sound_card { SoundCard (shared_card card) }
    requires shut_value { shut.old ≡ replicate 4096 0 }
    requires none_reached { NoneReached reached.old }
    ensures { Within words.now (shared_card card.entry) shut.new reached.new.marks reached.new.count }
{
    begin(card, words, shut, reached);
    walks::walk(
        card.pointers,
        card.info.used,
        Direction::Along,
        shut,
        reached,
    );
}

// ---- the list

// The marked blocks go into the first places, ascending.
pub fn list(marks: &[u8; 4096], blocks: usize, places: &mut [u16])
    requires blocks_bound { blocks ≤ 4096 }
    requires blocks_in_bounds { length (marked_below marks.now blocks) ≤ length places.old }
    ensures { places.new ≡ overwrite places.old 0 (marked_below marks.now blocks) }
{
    let mut listed = 0;
    for block in 0..blocks {
        if marks[block] == 1 {
            places[listed] = block as u16;
            listed += 1;
        }
    }
}

// The report on a sound card.
fn reach_sound(card: SharedCard, words: &[u64], places: &mut [u16]) -> Answer
    requires { SoundCard (shared_card card) }
    ensures { Reports (reach_sound words.now) card.entry places.old places.new result }
{
    if bad_keys(words) {
        return Err(Refusal::BadOperand);
    }
    let mut shut = [0u8; 4096];
    let mut reached = Reached::none();
    mark_within(card, words, &mut shut, &mut reached);
    if places.len() < reached.count {
        return Err(Refusal::BadOperand);
    }
    list(&reached.marks, card.info.blocks, places);
    Ok(Some(reached.count as u64))
}

// The report on any record and tables: audited first.
pub fn reach(card: SharedCard, words: &[u64], places: &mut [u16]) -> Answer
    ensures { Reports (reach_report words.now) card.entry places.old places.new result }
{
    match audit::audit(card) {
        Verdict::Misshapen => Err(Refusal::Misshapen),
        Verdict::Unsound => Err(Refusal::Unsound),
        Verdict::Sound => reach_sound(card, words, places),
    }
}
