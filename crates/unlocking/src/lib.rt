// The second list of the reach report: the sealed blocks whose write key would bring a chosen block within reach, found by one walk against
// the pointers. A key does that if some block that leads on to the chosen one has it.
#![tactic(auto)]

ghost use Rattle.std.specs.Prelude.{◌≡◌, false, ◌<◌, length, take, set, replicate};
ghost use Rattle.card.specs.Lent.{shared_card};
ghost use Rattle.card.specs.SoundCard.{SoundCard};
ghost use Rattle.card.specs.Calls.{missing};
ghost use Rattle.report.specs.Report.{unlocking_report};
ghost use Rattle.report.specs.Reporting.{unlocking_sound, Reports};
ghost use Rattle.walks.specs.Walk.{Walkable, Edge, Spread, NoneReached};
ghost use Rattle.walks.specs.declared.Direction.TheVariants.{Against};
ghost use Rattle.unlocking.specs.Unlocking.{Keyed, QueuedBelow, has_this_key, fits_queued, leads_or_fits, Kept, FoundOf};

use card::{Answer, Mode, Refusal, SharedCard, Verdict};
use walks::{Direction, Reached};

// ---- the blocks that lead on

// The chosen block is queued, and each that points to one in the queue that is not shut.
fn queue_leading(
    pointers: &[u32],
    used: usize,
    chosen: u16,
    shut: &[u8; 4096],
    reached: &mut Reached,
)
    requires walkable { Walkable pointers.now used }
    requires chosen_bound { chosen < 4096 }
    requires none_reached { NoneReached reached.old }
    ensures { Spread (Edge Against shut.now (take used pointers.now)) (set (replicate 4096 0) chosen 1) reached.new.marks reached.new.queue reached.new.count }
{
    reached.enter(chosen);
    walks::walk(pointers, used, Direction::Against, shut, reached);
}

// ---- keys that fit

// One of the block's keys has these words.
fn has_this_key(flags: &[u8], keys: &[u64], block: usize, high: u64, low: u64) -> bool
    requires keyed { Keyed flags.now keys.now }
    requires block_in_bounds { block < length flags.now }
    ensures { result ≡ has_this_key flags.now keys.now high low block }
{
    let flag = flags[block];
    let read = access::key_is(keys, Mode::Reading, block, high, low);
    let write = access::key_is(keys, Mode::Writing, block, high, low);
    (flags::has_key(flag, Mode::Reading) & read) | (flags::has_key(flag, Mode::Writing) & write)
}

// One of the blocks in the queue has this key.
fn fits(flags: &[u8], keys: &[u64], reached: &Reached, high: u64, low: u64) -> bool
    requires keyed { Keyed flags.now keys.now }
    requires queued_below { QueuedBelow reached.now.queue reached.now.count (length flags.now) }
    ensures { result ≡ fits_queued flags.now keys.now (take reached.now.count reached.now.queue) high low }
{
    for at in 0..reached.count {
        if has_this_key(flags, keys, reached.queue[at] as usize, high, low) {
            return true;
        }
    }
    false
}

// The block leads on itself, or its write key fits. A sealed block that leads on is queued with its own write key: it need not be compared.
fn leads_or_fits(flags: &[u8], keys: &[u64], reached: &Reached, block: usize) -> bool
    requires keyed { Keyed flags.now keys.now }
    requires queued_below { QueuedBelow reached.now.queue reached.now.count (length flags.now) }
    requires block_in_bounds { block < length flags.now }
    ensures { result ≡ leads_or_fits flags.now keys.now reached.now.marks (take reached.now.count reached.now.queue) block }
{
    if reached.marks[block] == 1 {
        return true;
    }
    let at = 4 * block + 2;
    fits(flags, keys, reached, keys[at], keys[at + 1])
}

// Of the blocks that are shut those stay so that lead on or whose write key fits: how many.
fn keep_fitting(flags: &[u8], keys: &[u64], reached: &Reached, shut: &mut [u8; 4096]) -> usize
    requires keyed { Keyed flags.now keys.now }
    requires queued_below { QueuedBelow reached.now.queue reached.now.count (length flags.now) }
    ensures { Kept flags.now keys.now reached.now.marks (take reached.now.count reached.now.queue) shut.old shut.new result }
{
    let mut kept = 0;
    for block in 0..flags.len() {
        if shut[block] == 1 {
            if leads_or_fits(flags, keys, reached, block) {
                kept += 1;
            } else {
                shut[block] = 0;
            }
        }
    }
    kept
}

// ---- the list

// The blocks that unlock the chosen one stay shut, and no others: how many, or nothing if it is within reach.
fn find(card: SharedCard, words: &[u64], chosen: u16, shut: &mut [u8; 4096]) -> Option<usize>
    requires sound_card { SoundCard (shared_card card) }
    requires chosen_value { missing (shared_card card).public chosen ≡ false }
    requires shut_value { shut.old ≡ replicate 4096 0 }
    ensures { FoundOf words.now (shared_card card.entry) chosen shut.new result }
{
    let mut reached = Reached::none();
    reach::mark_within(card, words, shut, &mut reached);
    if reached.marks[chosen as usize] == 1 {
        return None;
    }
    // The second walk takes over the arrays of the first.
    reached = Reached::none();
    queue_leading(card.pointers, card.info.used, chosen, shut, &mut reached);
    Some(keep_fitting(card.flags, card.keys, &reached, shut))
}

// The report on a sound card. A block that is not allocated is not within reach, and none unlocks it: so 3 may come before the places.
fn unlocking_sound(card: SharedCard, words: &[u64], chosen: u16, places: &mut [u16]) -> Answer
    requires { SoundCard (shared_card card) }
    ensures { Reports (unlocking_sound words.now chosen) card.entry places.old places.new result }
{
    let gone = access::missing(card.info, card.flags, chosen as usize);
    let bad = reach::bad_keys(words);
    if bad {
        return Err(Refusal::BadOperand);
    }
    if gone {
        return Err(Refusal::NotAllocated);
    }
    let mut shut = [0u8; 4096];
    let found = find(card, words, chosen, &mut shut);
    let Some(count) = found else {
        return Err(Refusal::BadOperand);
    };
    if places.len() < count {
        return Err(Refusal::BadOperand);
    }
    reach::list(&shut, card.info.blocks, places);
    Ok(Some(count as u64))
}

// The report on any record and tables: audited first.
pub fn unlocking(card: SharedCard, words: &[u64], chosen: u16, places: &mut [u16]) -> Answer
    ensures { Reports (unlocking_report words.now chosen) card.entry places.old places.new result }
{
    match audit::audit(card) {
        Verdict::Misshapen => Err(Refusal::Misshapen),
        Verdict::Unsound => Err(Refusal::Unsound),
        Verdict::Sound => unlocking_sound(card, words, chosen, places),
    }
}
