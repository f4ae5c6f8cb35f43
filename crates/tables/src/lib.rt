// Leaves on the card's record and tables: copying, clearing, counting, and the sorted pointers.
#![tactic(auto)]

ghost use Rattle.std.specs.Prelude.{◌≡◌, false, ◌∷◌, ◌++◌, ◌+◌, length, take, drop};
ghost use Rattle.card.specs.Contents.{zeros};
ghost use Rattle.card.specs.Pointers.{contains, points_from, beside, insert};
ghost use Rattle.card.specs.Plan.{with_used, with_time};
ghost use Rattle.card.specs.Calls.{fresh_info};
ghost use Rattle.tables.specs.Rank.{rank};
ghost use Rattle.tables.specs.Free.{free_below};
ghost use Rattle.tables.specs.Rented.{rented_below};
ghost use Rattle.tables.specs.Places.{remove_at, raised_at, PutAt, TakenAt};
ghost use Rattle.tables.specs.Merge.{MergedIn};
ghost use Rattle.tables.specs.InUse.{Sorted, Addable, Mergeable, Raisable, Lowerable, Paired};

use card::Info;

// ---- the record

// Another number of pointers in use.
pub fn with_used(info: Info, used: usize) -> Info
    ensures { result ≡ with_used info used }
{
    Info { used, ..info }
}

// Another time, and the total that goes with it.
pub fn with_time(info: Info, time: u64, total: u64) -> Info
    ensures { result ≡ with_time info time total }
{
    Info {
        time,
        total,
        ..info
    }
}

// The record of a fresh card.
pub fn fresh(blocks: usize, roots: usize, bytes: usize) -> Info
    ensures { result ≡ fresh_info blocks roots bytes }
{
    Info {
        blocks,
        roots,
        bytes,
        used: 0,
        time: 0,
        total: 0,
    }
}

// ---- bytes

// `to` becomes `from`, which is as long.
pub fn copy(from: &[u8], to: &mut [u8])
    requires { length from.now ≡ length to.old }
    ensures { to.new ≡ from.now }
{
    // Of std's `copy_from_slice` the compiler makes a call of `memmove`, which the library asks no firmware for (docs/FIRMWARE.md).
    for i in 0..to.len() {
        to[i] = from[i];
    }
}

// `to` becomes zeros.
pub fn clear(to: &mut [u8])
    ensures { to.new ≡ zeros (length to.old) }
{
    to.fill(0);
}

// ---- flags

// The number of free blocks.
// A loop counts, here and below: std's `filter` with `count` takes 2.6 times the time.
pub fn count_free(flags: &[u8]) -> usize
    ensures { result ≡ length (free_below flags.now (length flags.now)) }
{
    let mut free: usize = 0;
    for flag in flags {
        if flags::free(*flag) {
            free += 1;
        }
    }
    free
}

// The number of allocated blocks that are no roots.
pub fn count_rented(roots: usize, flags: &[u8]) -> usize
    ensures { result ≡ length (rented_below roots flags.now (length flags.now)) }
{
    let ordinary = &flags[roots.min(flags.len())..];
    let mut rented: usize = 0;
    for flag in ordinary {
        if flags::allocated(*flag) {
            rented += 1;
        }
    }
    rented
}

// ---- pointers: the first `used` places of the table, ascending. The table is C's, and so is the number beside it, in the record.

// The number of pointers in use below `wanted`: the place where it stands, or would.
pub fn place(pointers: &[u32], used: usize, wanted: u32) -> usize
    requires { Sorted pointers.now used }
    ensures { result ≡ rank wanted (take used pointers.now) }
{
    pointers[..used].partition_point(|pointer| *pointer < wanted)
}

// The pointer is in use, if it stands at its place.
pub fn stands(pointers: &[u32], used: usize, at: usize, wanted: u32) -> bool
    requires sorted { Sorted pointers.now used }
    requires at_value { at ≡ rank wanted (take used pointers.now) }
    ensures { result ≡ contains wanted (take used pointers.now) }
{
    at < used && pointers[at] == wanted
}

// The pointer is in use.
pub fn holds(pointers: &[u32], used: usize, wanted: u32) -> bool
    requires { Sorted pointers.now used }
    ensures { result ≡ contains wanted (take used pointers.now) }
{
    pointers[..used].binary_search(&wanted).is_ok()
}

// Some pointer in use starts at the block.
pub fn points_from(pointers: &[u32], used: usize, block: u16) -> bool
    requires { Sorted pointers.now used }
    ensures { result ≡ points_from block (take used pointers.now) }
{
    let source = block as u32;
    let at = place(pointers, used, source * 65536);
    at < used && pointers[at] / 65536 == source
}

// How often the pointer is in use: the number beside it, 0 where it is not.
pub fn times(pointers: &[u32], multiplicities: &[u16], used: usize, wanted: u32) -> u16
    requires sorted { Sorted pointers.now used }
    requires paired { Paired pointers.now multiplicities.now }
    ensures { result ≡ beside wanted (take used pointers.now) (take used multiplicities.now) }
{
    let at = place(pointers, used, wanted);
    if stands(pointers, used, at, wanted) {
        multiplicities[at]
    } else {
        0
    }
}

// ---- places: pointers, and the multiplicities beside them, move up and down alike

// The first `used` elements from a place on move up by so many places.
// std's rotations call `memmove`, which the library asks no firmware for (docs/FIRMWARE.md).
fn raise<T: Copy>(xs: &mut [T], used: usize, by: usize, at: usize)
    requires { Raisable xs.old used by at }
    ensures { xs.new ≡ raised_at at by used xs.old }
{
    for i in (at..used).rev() {
        xs[i + by] = xs[i];
    }
}

// The element at a place is taken away, those behind it move down by one, and the last place holds `blank`.
fn lower<T: Copy>(xs: &mut [T], used: usize, at: usize, blank: T)
    requires { Lowerable xs.old used at }
    ensures { xs.new ≡ remove_at at (take used xs.old) ++ (blank ∷ drop used xs.old) }
{
    for i in at..used - 1 {
        xs[i] = xs[i + 1];
    }
    xs[used - 1] = blank;
}

// A pointer is put in at a place, and its multiplicity 1 beside it.
pub fn put(pointers: &mut [u32], multiplicities: &mut [u16], used: usize, at: usize, wanted: u32)
    requires raisable { Raisable pointers.old used 1 at }
    requires paired { Paired pointers.old multiplicities.old }
    ensures { PutAt used at wanted pointers.old multiplicities.old pointers.new multiplicities.new }
{
    raise(pointers, used, 1, at);
    raise(multiplicities, used, 1, at);
    pointers[at] = wanted;
    multiplicities[at] = 1;
}

// A pointer is taken away at a place, and its multiplicity beside it.
pub fn take_away(pointers: &mut [u32], multiplicities: &mut [u16], used: usize, at: usize)
    requires lowerable { Lowerable pointers.old used at }
    requires paired { Paired pointers.old multiplicities.old }
    ensures { TakenAt used at pointers.old multiplicities.old pointers.new multiplicities.new }
{
    lower(pointers, used, at, 0);
    lower(multiplicities, used, at, 0);
}

// ---- several pointers

// A pointer is put into its place in an ascending list that has no multiplicities beside it.
pub fn insert(list: &mut [u32], used: usize, wanted: u32)
    requires { Addable list.old used wanted }
    ensures { list.new ≡ insert wanted (take used list.old) ++ drop (used + 1) list.old }
{
    let at = place(list, used, wanted);
    raise(list, used, 1, at);
    list[at] = wanted;
}

// The first `count` of the added pointers are put into their places, each with multiplicity 1, the highest first, so that each pointer in use
// moves at most once.
pub fn merge(
    pointers: &mut [u32],
    multiplicities: &mut [u16],
    used: usize,
    added: &[u32],
    count: usize,
)
    requires mergeable { Mergeable pointers.old used added.now count }
    requires paired { Paired pointers.old multiplicities.old }
    ensures { MergedIn (take count added.now) used pointers.old multiplicities.old pointers.new multiplicities.new }
{
    // The pointers in use that are not yet in their last place.
    let mut old = used;
    for new in (0..count).rev() {
        let highest = added[new];
        let at = place(pointers, old, highest);
        raise(pointers, old, new + 1, at);
        raise(multiplicities, old, new + 1, at);
        old = at;
        pointers[old + new] = highest;
        multiplicities[old + new] = 1;
    }
}
