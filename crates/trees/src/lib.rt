// The blocks that are freed with a pointer, found before anything is changed: of each block it is held how often pointers still lead to it, and
// with the last of them the block is marked, and queued until its own pointers are taken off in turn.
#![tactic(auto)]

ghost use Rattle.std.specs.Prelude.{◌≡◌, true, ◌+◌, ◌≤◌, ◌<◌, length, take, get_or, replicate};
ghost use Rattle.card.specs.Card.{points_to};
ghost use Rattle.card.specs.Lent.{shared_card};
ghost use Rattle.card.specs.SoundCard.{SoundCard};
ghost use Rattle.walks.specs.Walk.{Walkable, mark, NoneReached};
ghost use Rattle.trees.specs.Release.{Copied, Indexed, Releasable, Lost, Releasing, Dropped, Loosened, Released};
ghost use Rattle.trees.specs.Freed.{Freed};

use card::SharedCard;
use walks::Reached;

// ---- where the walk starts

// The counts go into the first places.
fn copy(counts: &[u32], left: &mut [u32; 4096])
    requires counts_len_bound { length counts.now ≤ 4096 }
    requires left_value { left.old ≡ replicate 4096 0 }
    ensures { Copied counts.now left.new (length counts.now) }
{
    left[..counts.len()].copy_from_slice(counts);
}

// For each block with pointers of its own, the place of the first of them.
fn index(pointers: &[u32], used: usize, first: &mut [u16; 4096])
    requires walkable { Walkable pointers.now used }
    requires first_value { first.old ≡ replicate 4096 0 }
    ensures { Indexed (take used pointers.now) first.new 0 }
{
    for at in (0..used).rev() {
        first[(pointers[at] / 65536) as usize] = at as u16;
    }
}

// ---- the walk

// So many of the pointers to a block are gone: with the last of them the block is marked and queued.
fn lose(left: &mut [u32; 4096], reached: &mut Reached, block: u16, times: u32)
    requires block_bound { block < 4096 }
    requires times_bound { (get_or left.old block 0 ≡ 0 → ⊥) → times ≤ get_or left.old block 0 }
    requires count_bound { (mark reached.old.marks block ≡ 1 → ⊥) → reached.old.count < 4096 }
    ensures { Lost left.old reached.old.marks reached.old.queue reached.old.count block times left.new reached.new.marks reached.new.queue reached.new.count }
{
    let b = block as usize;
    let count = left[b];
    if count == 0 {
        return;
    }
    let rest = count - times;
    left[b] = rest;
    if rest != 0 {
        return;
    }
    reached.enter(block);
}

// The block at the head of the queue is freed: its pointers are gone.
fn release(
    pointers: &[u32],
    multiplicities: &[u16],
    used: usize,
    first: &[u16; 4096],
    left: &mut [u32; 4096],
    reached: &mut Reached,
    head: usize,
)
    requires releasable { Releasable pointers.now multiplicities.now used }
    requires indexed { Indexed (take used pointers.now) first.now 0 }
    requires releasing { Releasing (take used pointers.now) (take used multiplicities.now) left.old reached.old.marks reached.old.queue head reached.old.count 0 }
    requires head_lt_count { head < reached.old.count }
    ensures { Dropped (take used pointers.now) (take used multiplicities.now) reached.old.marks left.new reached.new.marks reached.new.queue (head + 1) reached.new.count 0 }
{
    let block = reached.queue[head] as usize;
    for at in first[block] as usize..used {
        let pointer = pointers[at];
        if (pointer / 65536) as usize != block {
            return;
        }
        let destination = (pointer % 65536) as u16;
        let times = multiplicities[at] as u32;
        lose(left, reached, destination, times);
    }
}

// All blocks that go with the last pointer to a block are marked.
fn spread(
    pointers: &[u32],
    multiplicities: &[u16],
    used: usize,
    left: &mut [u32; 4096],
    reached: &mut Reached,
    block: u16,
)
    requires releasable { Releasable pointers.now multiplicities.now used }
    requires loosened { Loosened (take used pointers.now) (take used multiplicities.now) left.old block }
    requires none_reached { NoneReached reached.old }
    ensures { Released (take used pointers.now) reached.new.marks block reached.new.count }
{
    let mut first = [0u16; 4096];
    index(pointers, used, &mut first);
    reached.enter(block);
    let mut head = 0;
    // The queue grows meanwhile, so that its end is not known at the start.
    while head < reached.count {
        release(pointers, multiplicities, used, &first, left, reached, head);
        head += 1;
    }
}

// The blocks that are freed with a pointer are marked.
pub fn freed_with(card: SharedCard, source: u16, destination: u16, reached: &mut Reached)
    requires sound_card { SoundCard (shared_card card) }
    requires destination_value { points_to (shared_card card).public source destination ≡ true }
    requires none_reached { NoneReached reached.old }
    ensures { Freed (shared_card card.entry).public source destination reached.new.marks reached.new.count }
{
    let used = card.info.used;
    let to = destination as usize;
    let mut left = [0u32; 4096];
    copy(card.counts, &mut left);
    let pointer = (source as u32) * 65536 + (destination as u32);
    let times = tables::times(card.pointers, card.multiplicities, used, pointer) as u32;
    let others = left[to] - times;
    left[to] = others;
    if others != 0 {
        return;
    }
    spread(
        card.pointers,
        card.multiplicities,
        used,
        &mut left,
        reached,
        destination,
    );
}
