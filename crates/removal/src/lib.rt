// DELETE_TREE: a pointer goes, and with it each block to which then no pointer leads but from blocks that go.
#![tactic(auto)]

ghost use Rattle.std.specs.Prelude.{◌≡◌, [], ◌*◌, ◌≤◌, length, get_or, replicate};
ghost use Rattle.card.specs.Lists.{any};
ghost use Rattle.card.specs.Pointers.{pointer};
ghost use Rattle.card.specs.Card.{key_flag};
ghost use Rattle.card.specs.Lent.{Performs, SameTables, lent_card, shared_card, changed};
ghost use Rattle.card.specs.Plan.{changes};
ghost use Rattle.card.specs.SoundCard.{SoundCard};
ghost use Rattle.card.specs.Session.{request, perform_sound};
ghost use Rattle.card.specs.declared.Call.TheVariants.{DeleteTree};
ghost use Rattle.card.specs.declared.Mode.TheVariants.{Writing};
ghost use Rattle.walks.specs.Walk.{marked_below, NoneReached};
ghost use Rattle.removal.specs.Dropping.{Countable, ClosedUp, Blanked, CanDrop, dropped_with};
ghost use Rattle.removal.specs.Freeing.{FreesEach};
ghost use Rattle.removal.specs.TreeChecked.{TreeFound};

use card::{Answer, DeleteOperands, LentCard, Mode, Port, Refusal, SharedCard};
use walks::Reached;

// ---- the checks

// Some marked block has a write key.
fn some_write_key(flags: &[u8], marks: &[u8; 4096], blocks: usize) -> bool
    requires blocks_in_bounds { blocks ≤ length flags.now }
    requires blocks_bound { blocks ≤ 4096 }
    ensures { result ≡ any (λ b. key_flag Writing (get_or flags.now b 0)) (marked_below marks.now blocks) }
{
    for at in 0..blocks {
        if (marks[at] == 1) & flags::has_key(flags[at], Mode::Writing) {
            return true;
        }
    }
    false
}

// The checks of DELETE_TREE. The blocks that are freed are marked: how many.
fn tree_check(
    card: SharedCard,
    port: Port,
    o: DeleteOperands,
    reached: &mut Reached,
) -> Result<usize, Refusal>
    requires sound_card { SoundCard (shared_card card) }
    requires none_reached { NoneReached reached.old }
    ensures { TreeFound port (shared_card card.entry) o reached.new.marks result }
{
    linking::removal_check(card, port, o)?;
    trees::freed_with(card, o.source, o.destination, reached);
    if some_write_key(card.flags, &reached.marks, card.info.blocks) {
        return Err(Refusal::HasWriteKey);
    }
    Ok(reached.count)
}

// ---- the pointers

// The pointers that stay move up behind each other; the destinations of the others are counted less. How many stay.
fn close_up(
    counts: &mut [u32],
    pointers: &mut [u32],
    multiplicities: &mut [u16],
    used: usize,
    marks: &[u8; 4096],
    gone: u32,
) -> usize
    requires { Countable counts.old pointers.old multiplicities.old used }
    ensures { ClosedUp marks.now gone used counts.old pointers.old multiplicities.old counts.new pointers.new multiplicities.new result }
{
    let mut kept: usize = 0;
    for at in 0..used {
        let pointer = pointers[at];
        let times = multiplicities[at];
        let from = (pointer / 65536) as usize;
        if (pointer == gone) | (marks[from] == 1) {
            let to = (pointer % 65536) as usize;
            counts[to] -= times as u32;
        } else {
            pointers[kept] = pointer;
            multiplicities[kept] = times;
            kept += 1;
        }
    }
    kept
}

// The places from one on and below another hold 0.
fn blank(pointers: &mut [u32], multiplicities: &mut [u16], from: usize, to: usize)
    requires from_le_to { from ≤ to }
    requires to_in_bounds { to ≤ length pointers.old }
    requires to_in_bounds_2 { to ≤ length multiplicities.old }
    ensures { Blanked pointers.old multiplicities.old from to pointers.new multiplicities.new }
{
    pointers[from..to].fill(0);
    multiplicities[from..to].fill(0);
}

// The pointer is dropped, and each pointer that starts at a marked block.
fn drop_pointers(card: &mut LentCard, marks: &[u8; 4096], source: u16, destination: u16)
    requires { CanDrop card.old.counts.now card.old.pointers.now card.old.multiplicities.now card.old.info.used card.old.info.blocks (pointer source destination) }
    ensures same { SameTables card.old card.new }
    ensures drops { lent_card card.new ≡ changes (lent_card card.old) (dropped_with source destination (marked_below marks.now card.old.info.blocks)) }
{
    let used = card.info.used;
    let gone = (source as u32) * 65536 + (destination as u32);
    let kept = close_up(
        card.counts,
        card.pointers,
        card.multiplicities,
        used,
        marks,
        gone,
    );
    blank(card.pointers, card.multiplicities, kept, used);
    card.info = tables::with_used(card.info, kept);
}

// ---- the blocks

// Each marked block is freed, and waits.
fn free_marked(
    flags: &mut [u8],
    keys: &mut [u64],
    windows: &mut [u64],
    marks: &[u8; 4096],
    blocks: usize,
)
    requires blocks_bound { blocks ≤ 4096 }
    requires blocks_in_bounds { blocks ≤ length flags.old }
    requires blocks_in_bounds_2 { 4 * blocks ≤ length keys.old }
    requires blocks_in_bounds_3 { 2 * blocks ≤ length windows.old }
    ensures { FreesEach (marked_below marks.now blocks) (changed flags.old flags.new) (changed keys.old keys.new) (changed windows.old windows.new) }
{
    for at in 0..blocks {
        if marks[at] == 1 {
            changes::free_block(flags, keys, windows, at as u16);
        }
    }
}

// ---- the call

// DELETE_TREE on a card that has been audited.
pub fn delete_tree_sound(card: &mut LentCard, port: Port, o: DeleteOperands) -> Answer
    requires { SoundCard (lent_card card.old) }
    ensures same { SameTables card.old card.new }
    ensures performs { Performs (λ c. perform_sound port c (request (DeleteTree o) [] [] [])) card.old card.new result [] [] }
{
    let mut reached = Reached::none();
    let count = tree_check(card.shared(), port, o, &mut reached)?;
    let blocks = card.info.blocks;
    drop_pointers(card, &reached.marks, o.source, o.destination);
    free_marked(card.flags, card.keys, card.windows, &reached.marks, blocks);
    Ok(Some(count as u64))
}
