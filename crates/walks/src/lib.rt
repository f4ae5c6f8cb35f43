// Walks from block to block, along the pointers or against them, each pointer looked at once: a mark for each block that was come to, and a
// queue of them: of those from its head on the pointers are still to be followed.
#![tactic(auto)]

ghost use Rattle.std.specs.Prelude.{◌≡◌, ◌+◌, ◌<◌, length, take, replicate};
ghost use Rattle.walks.specs.Walk.{near_end, far_end, Walkable, Edge, Linked, mark, Walking, Followed, Spread, NoneReached, Entered};

// Along the pointers a walk comes from a pointer's source to its destination, against them from the destination to the source.
// A value and no closure, so that the contracts can say which of the two it is.
#[derive(Drop)]
#[derive(Clone, Copy)]
pub enum Direction {
    Along,
    Against,
}

// ---- the ends of a pointer

// The end that a walk comes from, and the one that it comes to.
fn ends(direction: Direction, pointer: u32) -> (u16, u16)
    ensures near { result.0 ≡ near_end direction pointer }
    ensures far { result.1 ≡ far_end direction pointer }
{
    let source = (pointer / 65536) as u16;
    let destination = (pointer % 65536) as u16;
    match direction {
        Direction::Along => (source, destination),
        Direction::Against => (destination, source),
    }
}

// ---- the pointers that leave a block

// For each block one more than the place of the last pointer that leaves it, or 0; and at each place the same of the pointers before it
// that leave the same block.
fn link(
    pointers: &[u32],
    used: usize,
    direction: Direction,
    heads: &mut [u16; 4096],
    nexts: &mut [u16; 16384],
)
    requires walkable { Walkable pointers.now used }
    requires heads_value { heads.old ≡ replicate 4096 0 }
    requires nexts_len { length nexts.old ≡ 16384 }
    ensures { Linked direction (take used pointers.now) heads.new nexts.new }
{
    for at in 0..used {
        let (near, _) = ends(direction, pointers[at]);
        let block = near as usize;
        nexts[at] = heads[block];
        heads[block] = at as u16 + 1;
    }
}

// ---- the walk

// The blocks that a walk has come to: a mark for each, and a queue of them, of which so many have been put in.
#[derive(Drop)]
pub struct Reached {
    pub marks: [u8; 4096],
    pub queue: [u16; 4096],
    pub count: usize,
}

impl Reached {
    // No block.
    pub fn none() -> Reached
        ensures { NoneReached result }
    {
        Reached {
            marks: [0u8; 4096],
            queue: [0u16; 4096],
            count: 0,
        }
    }

    // A block that is not marked is marked and queued.
    pub fn enter(&mut self, block: u16)
        requires block_bound { block < 4096 }
        requires count_bound { (mark self.old.marks block ≡ 1 → ⊥) → self.old.count < 4096 }
        ensures { Entered self.old.marks self.old.queue self.old.count block self.new.marks self.new.queue self.new.count }
    {
        let b = block as usize;
        if self.marks[b] == 1 {
            return;
        }
        self.marks[b] = 1;
        self.queue[self.count] = block;
        self.count += 1;
    }
}

// The block at the head of the queue is left: each block to which a pointer leads from it is marked, unless the pointer's destination is shut.
fn follow(
    pointers: &[u32],
    used: usize,
    direction: Direction,
    shut: &[u8; 4096],
    heads: &[u16; 4096],
    nexts: &[u16; 16384],
    reached: &mut Reached,
    head: usize,
)
    requires walkable { Walkable pointers.now used }
    requires linked { Linked direction (take used pointers.now) heads.now nexts.now }
    requires walking { Walking (Edge direction shut.now (take used pointers.now)) reached.old.marks reached.old.queue head reached.old.count }
    requires head_lt_count { head < reached.old.count }
    ensures { Followed (Edge direction shut.now (take used pointers.now)) reached.old.marks reached.new.marks reached.new.queue (head + 1) reached.new.count }
{
    let block = reached.queue[head] as usize;
    let mut at = heads[block] as usize;
    // No form of the library goes through a chain of places.
    while at != 0 {
        let place = at - 1;
        let pointer = pointers[place];
        at = nexts[place] as usize;
        if shut[(pointer % 65536) as usize] == 0 {
            let (_, far) = ends(direction, pointer);
            reached.enter(far);
        }
    }
}

// From the blocks in the queue on, each block to which pointers lead is marked and queued in turn, by links that are made.
fn spread(
    pointers: &[u32],
    used: usize,
    direction: Direction,
    shut: &[u8; 4096],
    heads: &[u16; 4096],
    nexts: &[u16; 16384],
    reached: &mut Reached,
)
    requires walkable { Walkable pointers.now used }
    requires linked { Linked direction (take used pointers.now) heads.now nexts.now }
    requires walking { Walking (Edge direction shut.now (take used pointers.now)) reached.old.marks reached.old.queue 0 reached.old.count }
    ensures { Spread (Edge direction shut.now (take used pointers.now)) reached.old.marks reached.new.marks reached.new.queue reached.new.count }
{
    let mut head: usize = 0;
    // The queue grows meanwhile, so that its end is not known at the start.
    while head < reached.count {
        follow(pointers, used, direction, shut, heads, nexts, reached, head);
        head += 1;
    }
}

// The whole walk from the blocks in the queue on, with links of its own.
// Its arrays are 40 KiB: two walks laid into one frame would hold them twice.
#[inline(never)]
pub fn walk(
    pointers: &[u32],
    used: usize,
    direction: Direction,
    shut: &[u8; 4096],
    reached: &mut Reached,
)
    requires walkable { Walkable pointers.now used }
    requires walking { Walking (Edge direction shut.now (take used pointers.now)) reached.old.marks reached.old.queue 0 reached.old.count }
    ensures { Spread (Edge direction shut.now (take used pointers.now)) reached.old.marks reached.new.marks reached.new.queue reached.new.count }
{
    let mut heads = [0u16; 4096];
    let mut nexts = [0u16; 16384];
    link(pointers, used, direction, &mut heads, &mut nexts);
    spread(pointers, used, direction, shut, &heads, &nexts, reached);
}
