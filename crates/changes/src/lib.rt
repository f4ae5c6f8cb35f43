// Changes of the tables that a pointer more or less and a freed block make.
#![tactic(auto)]

ghost use Rattle.std.specs.Prelude.{◌≡◌, ◌+◌, ◌*◌, ◌≤◌, ◌<◌, length, get_or};
ghost use Rattle.card.specs.Lent.{changed};
ghost use Rattle.card.specs.Pointers.{pointer};
ghost use Rattle.changes.specs.OnTables.{CanMakePointer, CanTakePointer, made_by, taken_by, ChangesPointers, FreesBlock};

use card::{Info, WAITING_FLAGS};

// A pointer once more, and its destination counted once more, whatever the other tables hold: one that is there is raised and moves nothing,
// another takes a place.
pub fn make_pointer(
    info: Info,
    counts: &mut [u32],
    pointers: &mut [u32],
    multiplicities: &mut [u16],
    source: u16,
    destination: u16,
) -> Info
    requires can_make_pointer { CanMakePointer pointers.old multiplicities.old info.used (pointer source destination) }
    requires destination_in_bounds { destination < length counts.old }
    requires destination_bound { get_or counts.old destination 0 < 4294967295 }
    ensures { ChangesPointers (made_by pointers.old info.used source destination) info (changed counts.old counts.new) (changed pointers.old pointers.new) (changed multiplicities.old multiplicities.new) result }
{
    let used = info.used;
    let to = destination as usize;
    let pointer = (source as u32) * 65536 + (destination as u32);
    let at = tables::place(pointers, used, pointer);
    counts[to] += 1;
    if tables::stands(pointers, used, at, pointer) {
        multiplicities[at] += 1;
        return info;
    }
    tables::put(pointers, multiplicities, used, at, pointer);
    tables::with_used(info, used + 1)
}

// A pointer once less, and its destination counted once less, whatever the other tables hold: the last of several goes from its place.
pub fn take_pointer(
    info: Info,
    counts: &mut [u32],
    pointers: &mut [u32],
    multiplicities: &mut [u16],
    source: u16,
    destination: u16,
) -> Info
    requires can_take_pointer { CanTakePointer pointers.old multiplicities.old info.used (pointer source destination) }
    requires destination_in_bounds { destination < length counts.old }
    requires bound { 1 ≤ get_or counts.old destination 0 }
    ensures { ChangesPointers (taken_by pointers.old multiplicities.old info.used source destination) info (changed counts.old counts.new) (changed pointers.old pointers.new) (changed multiplicities.old multiplicities.new) result }
{
    let used = info.used;
    let to = destination as usize;
    let pointer = (source as u32) * 65536 + (destination as u32);
    let at = tables::place(pointers, used, pointer);
    counts[to] -= 1;
    if multiplicities[at] != 1 {
        multiplicities[at] -= 1;
        return info;
    }
    tables::take_away(pointers, multiplicities, used, at);
    tables::with_used(info, used - 1)
}

// A block waits: its flags become those of a waiting block, its keys and windows 0, whatever the other tables hold.
pub fn free_block(flags: &mut [u8], keys: &mut [u64], windows: &mut [u64], block: u16)
    requires block_in_bounds { block < length flags.old }
    requires block_in_bounds_2 { 4 * block + 4 ≤ length keys.old }
    requires block_in_bounds_3 { 2 * block + 2 ≤ length windows.old }
    ensures { FreesBlock block (changed flags.old flags.new) (changed keys.old keys.new) (changed windows.old windows.new) }
{
    let b = block as usize;
    let key = 4 * b;
    let window = 2 * b;
    flags[b] = WAITING_FLAGS;
    keys[key..key + 4].fill(0);
    windows[window..window + 2].fill(0);
}
