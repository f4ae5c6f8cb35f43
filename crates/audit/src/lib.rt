// The audit: shape and soundness of any record and tables, linear in blocks and places.
#![tactic(auto)]

ghost use Rattle.std.specs.Prelude.{◌≡◌, ◌&&◌, [], ◌+◌, ◌<◌, ◌≤◌, length, take, drop, get_or, replicate, eqb};
ghost use Rattle.card.specs.Lent.{shared_card};
ghost use Rattle.card.specs.Lists.{all, all_below};
ghost use Rattle.card.specs.Card.{allocated};
ghost use Rattle.card.specs.Soundness.{sound, verdict};
ghost use Rattle.audit.specs.Walks.{flagged, link_right, block_sound, PointersFit, RowsFit, PointersWalked, judged};

use card::{BLOCK_LIMIT, Info, LONGEST_INTERVAL, Mode, SharedCard, Verdict, WAITING_FLAGS};

// ---- pointers

fn is_allocated(info: Info, flags: &[u8], b: usize) -> bool
    requires { length flags.now ≡ info.blocks }
    ensures { result ≡ allocated (flagged info flags.now) b }
{
    if b < info.blocks {
        flags::allocated(flags[b])
    } else {
        false
    }
}

// The test of one pointer's ends. The destination's flags are not looked at: the walk of the blocks
// finds by the tally what is wrong with it.
fn link_right(info: Info, flags: &[u8], w: u32) -> bool
    requires { length flags.now ≡ info.blocks }
    ensures { result ≡ link_right info flags.now w }
{
    let source = (w / 65536) as usize;
    let destination = (w % 65536) as usize;
    (destination < info.blocks) & !(source == destination) & is_allocated(info, flags, source)
}

// Whether the pointers in use ascend and have right ends and multiplicities. If so, each block's
// place of the tally has the multiplicities of the pointers to it added up; else the tally says
// nothing. `least` is the least word that the next pointer may be.
fn walk_pointers(
    info: Info,
    flags: &[u8],
    pointers: &[u32],
    multiplicities: &[u16],
    tally: &mut [u32; BLOCK_LIMIT],
) -> bool
    requires fact_1 { PointersFit info flags.now pointers.now multiplicities.now }
    requires fact_2 { tally.old ≡ replicate 4096 0 }
    ensures { PointersWalked info flags.now (take info.used pointers.now) (take info.used multiplicities.now) result tally.new }
{
    let used = info.used;
    let mut least: u64 = 0;
    let mut i: usize = 0;
    // Document 01 asks for a walk that a label leaves at the first fault; how far it came is the verdict.
    'walk: while i < used {
        let w = pointers[i];
        let times = multiplicities[i];
        if link_right(info, flags, w) & (least <= w as u64) & (1 <= times) {
            let destination = (w % 65536) as usize;
            tally[destination] += times as u32;
            least = w as u64 + 1;
            i += 1;
        } else {
            break 'walk;
        }
    }
    i == used
}

// Whether each place from `used` on is 0, in both tables.
fn walk_unused(pointers: &[u32], multiplicities: &[u16], used: usize) -> bool
    requires fact_1 { used ≤ length pointers.now }
    requires fact_2 { length multiplicities.now ≡ length pointers.now }
    ensures { result ≡ all (λ w. eqb w 0) (drop used pointers.now) && all (λ n. eqb n 0) (drop used multiplicities.now) }
{
    let places = pointers.len();
    let mut i = used;
    // Left by a label, as the walk of the pointers is.
    'walk: while i < places {
        if (pointers[i] == 0) & (multiplicities[i] == 0) {
            i += 1;
        } else {
            break 'walk;
        }
    }
    i == places
}

// ---- blocks

// The two words from `at` on are 0.
fn zero_words(keys: &[u64], at: usize) -> bool
    requires { at + 1 < length keys.now }
    ensures { result ≡ eqb (get_or keys.now at 0) 0 && eqb (get_or keys.now (at + 1) 0) 0 }
{
    (keys[at] == 0) & (keys[at + 1] == 0)
}

fn block_sound(card: SharedCard, tallied: u32, b: usize) -> bool
    requires fact_1 { RowsFit card.info card.flags.now card.keys.now card.counts.now card.windows.now }
    requires fact_2 { b < card.info.blocks }
    ensures { result ≡ block_sound (shared_card card.entry) tallied b }
{
    let flag = card.flags[b];
    let count = card.counts[b];
    let window = 2 * b;
    let reading = card.windows[window];
    let writing = card.windows[window + 1];
    let root = b < card.info.roots;
    let held = flags::allocated(flag);
    let read_key = flags::has_key(flag, Mode::Reading);
    let write_key = flags::has_key(flag, Mode::Writing);
    let zero_read = zero_words(card.keys, 4 * b);
    let zero_write = zero_words(card.keys, 4 * b + 2);
    let empty = (flags::free(flag) | flags::waiting(flag))
        & zero_read
        & zero_write
        & (count == 0)
        & (reading == 0)
        & (writing == 0);
    let latest = card.info.time + LONGEST_INTERVAL as u64;
    (flag <= WAITING_FLAGS)
        & (!root | held)
        & (held | empty)
        & (read_key | zero_read)
        & (write_key | zero_write)
        & (count == tallied)
        & (!root | (tallied == 0))
        & (root | !held | (1 <= count))
        & (reading <= latest)
        & (writing <= latest)
}

fn walk_blocks(card: SharedCard, tally: &[u32; BLOCK_LIMIT]) -> Verdict
    requires { RowsFit card.info card.flags.now card.keys.now card.counts.now card.windows.now }
    ensures { result ≡ judged (all_below (λ b. block_sound (shared_card card.entry) (get_or tally.now b 0) b) card.entry.info.blocks) }
{
    let blocks = card.info.blocks;
    let mut b: usize = 0;
    // Document 01 asks for a loop that yields the verdict by break.
    loop {
        if b == blocks {
            break Verdict::Sound;
        }
        if block_sound(card, tally[b], b) {
            b += 1;
        } else {
            break Verdict::Unsound;
        }
    }
}

// ---- the whole

// The total, and the walks of a card of the right shape, each only after those before it found no fault.
fn walk(card: SharedCard) -> Verdict
    requires fact_1 { PointersFit card.info card.flags.now card.pointers.now card.multiplicities.now }
    requires fact_2 { RowsFit card.info card.flags.now card.keys.now card.counts.now card.windows.now }
    ensures { result ≡ judged (sound (shared_card card.entry)) }
{
    // The time is below 2^40: the product does not wrap.
    if card.info.time * (BLOCK_LIMIT as u64) < card.info.total {
        return Verdict::Unsound;
    }
    let mut tally = [0u32; BLOCK_LIMIT];
    if walk_pointers(
        card.info,
        card.flags,
        card.pointers,
        card.multiplicities,
        &mut tally,
    ) {
        if walk_unused(card.pointers, card.multiplicities, card.info.used) {
            walk_blocks(card, &tally)
        } else {
            Verdict::Unsound
        }
    } else {
        Verdict::Unsound
    }
}

// The verdict on a record and tables of any lengths and contents.
pub fn audit(card: SharedCard) -> Verdict
    ensures { result ≡ verdict (shared_card card.entry) }
{
    if shape::shaped(card) {
        walk(card)
    } else {
        Verdict::Misshapen
    }
}
