// The functions behind those that C links, which `interface_c` exports: the card's record as a lent slice of numbers, tables and buffers as slices,
// enums as numbers, credentials and new keys as bytes. Each makes a call of its operands and performs it, as a call record is.
// include/negvask.h describes them. Their parameters are those that C passes: a card is made of the record and the tables only behind them.
#![tactic(auto)]

ghost use Rattle.std.specs.Prelude.{◌≡◌, []};
ghost use Rattle.card.specs.Lent.{kept, changed};
ghost use Rattle.adapter.specs.Effects.{format_effect, reach_effect, unlocking_effect, Effects, EffectsGiving, EffectsLent, EffectsListing};
ghost use Rattle.interface.specs.Functions.{read, write, alloc, alloc_contig, create, delete, delete_tree, key_read, key_write, renew, force, tick, free, audit, rent, sweep, serve, effect_by};
ghost use Rattle.interface.specs.Batch.{stop_number, ServesBatch};

use card::{LentCard, Mode, SharedCard};
use input::Stop;

// ---- the calls, by their operands

// READ: B bytes of the block into `out`.
pub fn negvask_read(
    info: &mut [u64],
    flags: &mut [u8],
    keys: &mut [u64],
    counts: &mut [u32],
    pointers: &mut [u32],
    multiplicities: &mut [u16],
    windows: &mut [u64],
    contents: &mut [u8],
    port: u8,
    block: u16,
    credential: &[u8],
    interval: u32,
    out: &mut [u8],
) -> u32
    ensures { Effects (effect_by (read port block credential.now interval out.old)) (changed info.old info.new) (changed flags.old flags.new) (changed keys.old keys.new) (changed counts.old counts.new) (changed pointers.old pointers.new) (changed multiplicities.old multiplicities.new) (changed windows.old windows.new) (changed contents.old contents.new) result out.new [] }
{
    let decoding = parameters::read_at(port, block, credential, interval);
    let mut value = 0;
    adapter::perform(
        info,
        flags,
        keys,
        counts,
        pointers,
        multiplicities,
        windows,
        contents,
        decoding,
        &[],
        out,
        &mut [],
        &mut value,
    )
}

// WRITE: `bytes` into the block.
pub fn negvask_write(
    info: &mut [u64],
    flags: &mut [u8],
    keys: &mut [u64],
    counts: &mut [u32],
    pointers: &mut [u32],
    multiplicities: &mut [u16],
    windows: &mut [u64],
    contents: &mut [u8],
    port: u8,
    block: u16,
    credential: &[u8],
    interval: u32,
    bytes: &[u8],
) -> u32
    ensures { Effects (effect_by (write port block credential.now interval bytes.now)) (changed info.old info.new) (changed flags.old flags.new) (changed keys.old keys.new) (changed counts.old counts.new) (changed pointers.old pointers.new) (changed multiplicities.old multiplicities.new) (changed windows.old windows.new) (changed contents.old contents.new) result [] [] }
{
    let decoding = parameters::write_at(port, block, credential, interval);
    let mut value = 0;
    adapter::perform_without_buffers(
        info,
        flags,
        keys,
        counts,
        pointers,
        multiplicities,
        windows,
        contents,
        decoding,
        bytes,
        &mut value,
    )
}

// ALLOC: `count` blocks below the block, their numbers into `places`.
pub fn negvask_alloc(
    info: &mut [u64],
    flags: &mut [u8],
    keys: &mut [u64],
    counts: &mut [u32],
    pointers: &mut [u32],
    multiplicities: &mut [u16],
    windows: &mut [u64],
    contents: &mut [u8],
    port: u8,
    block: u16,
    credential: &[u8],
    hint: u16,
    count: u8,
    places: &mut [u16],
) -> u32
    ensures { Effects (effect_by (alloc port block credential.now hint count places.old)) (changed info.old info.new) (changed flags.old flags.new) (changed keys.old keys.new) (changed counts.old counts.new) (changed pointers.old pointers.new) (changed multiplicities.old multiplicities.new) (changed windows.old windows.new) (changed contents.old contents.new) result [] places.new }
{
    let decoding = parameters::alloc_at(port, block, credential, hint, count);
    let mut value = 0;
    adapter::perform(
        info,
        flags,
        keys,
        counts,
        pointers,
        multiplicities,
        windows,
        contents,
        decoding,
        &[],
        &mut [],
        places,
        &mut value,
    )
}

// ALLOC_CONTIG: `count` adjoining blocks below the block, their numbers into `places`.
pub fn negvask_alloc_contig(
    info: &mut [u64],
    flags: &mut [u8],
    keys: &mut [u64],
    counts: &mut [u32],
    pointers: &mut [u32],
    multiplicities: &mut [u16],
    windows: &mut [u64],
    contents: &mut [u8],
    port: u8,
    block: u16,
    credential: &[u8],
    hint: u16,
    count: u8,
    places: &mut [u16],
) -> u32
    ensures { Effects (effect_by (alloc_contig port block credential.now hint count places.old)) (changed info.old info.new) (changed flags.old flags.new) (changed keys.old keys.new) (changed counts.old counts.new) (changed pointers.old pointers.new) (changed multiplicities.old multiplicities.new) (changed windows.old windows.new) (changed contents.old contents.new) result [] places.new }
{
    let decoding = parameters::alloc_contig_at(port, block, credential, hint, count);
    let mut value = 0;
    adapter::perform(
        info,
        flags,
        keys,
        counts,
        pointers,
        multiplicities,
        windows,
        contents,
        decoding,
        &[],
        &mut [],
        places,
        &mut value,
    )
}

// CREATE: a pointer from the source to the destination, each with its credential.
pub fn negvask_create(
    info: &mut [u64],
    flags: &mut [u8],
    keys: &mut [u64],
    counts: &mut [u32],
    pointers: &mut [u32],
    multiplicities: &mut [u16],
    windows: &mut [u64],
    contents: &mut [u8],
    port: u8,
    source: u16,
    credential: &[u8],
    destination: u16,
    second: &[u8],
) -> u32
    ensures { Effects (effect_by (create port source credential.now destination second.now)) (changed info.old info.new) (changed flags.old flags.new) (changed keys.old keys.new) (changed counts.old counts.new) (changed pointers.old pointers.new) (changed multiplicities.old multiplicities.new) (changed windows.old windows.new) (changed contents.old contents.new) result [] [] }
{
    let decoding = parameters::create_at(port, source, credential, destination, second);
    let mut value = 0;
    adapter::perform_without_buffers(
        info,
        flags,
        keys,
        counts,
        pointers,
        multiplicities,
        windows,
        contents,
        decoding,
        &[],
        &mut value,
    )
}

// DELETE: the pointer from the source to the destination; `value` 1 if that freed the destination, else 0.
pub fn negvask_delete(
    info: &mut [u64],
    flags: &mut [u8],
    keys: &mut [u64],
    counts: &mut [u32],
    pointers: &mut [u32],
    multiplicities: &mut [u16],
    windows: &mut [u64],
    contents: &mut [u8],
    port: u8,
    source: u16,
    credential: &[u8],
    destination: u16,
    value: &mut u64,
) -> u32
    ensures { EffectsGiving (λ v. effect_by (delete port source credential.now destination v)) (changed info.old info.new) (changed flags.old flags.new) (changed keys.old keys.new) (changed counts.old counts.new) (changed pointers.old pointers.new) (changed multiplicities.old multiplicities.new) (changed windows.old windows.new) (changed contents.old contents.new) (changed value.old value.new) result }
{
    let decoding = parameters::delete_at(port, source, credential, destination);
    adapter::perform_without_buffers(
        info,
        flags,
        keys,
        counts,
        pointers,
        multiplicities,
        windows,
        contents,
        decoding,
        &[],
        value,
    )
}

// DELETE_TREE: the pointer from the source to the destination wholly, and all blocks that are left without one; `value` how many were freed.
pub fn negvask_delete_tree(
    info: &mut [u64],
    flags: &mut [u8],
    keys: &mut [u64],
    counts: &mut [u32],
    pointers: &mut [u32],
    multiplicities: &mut [u16],
    windows: &mut [u64],
    contents: &mut [u8],
    port: u8,
    source: u16,
    credential: &[u8],
    destination: u16,
    value: &mut u64,
) -> u32
    ensures { EffectsGiving (λ v. effect_by (delete_tree port source credential.now destination v)) (changed info.old info.new) (changed flags.old flags.new) (changed keys.old keys.new) (changed counts.old counts.new) (changed pointers.old pointers.new) (changed multiplicities.old multiplicities.new) (changed windows.old windows.new) (changed contents.old contents.new) (changed value.old value.new) result }
{
    let decoding = parameters::delete_tree_at(port, source, credential, destination);
    adapter::perform_without_buffers(
        info,
        flags,
        keys,
        counts,
        pointers,
        multiplicities,
        windows,
        contents,
        decoding,
        &[],
        value,
    )
}

// KEY_READ: the read key of the block replaced.
pub fn negvask_key_read(
    info: &mut [u64],
    flags: &mut [u8],
    keys: &mut [u64],
    counts: &mut [u32],
    pointers: &mut [u32],
    multiplicities: &mut [u16],
    windows: &mut [u64],
    contents: &mut [u8],
    port: u8,
    block: u16,
    credential: &[u8],
    key: &[u8],
) -> u32
    ensures { Effects (effect_by (key_read port block credential.now key.now)) (changed info.old info.new) (changed flags.old flags.new) (changed keys.old keys.new) (changed counts.old counts.new) (changed pointers.old pointers.new) (changed multiplicities.old multiplicities.new) (changed windows.old windows.new) (changed contents.old contents.new) result [] [] }
{
    let decoding = parameters::key_at(Mode::Reading, port, block, credential, key);
    let mut value = 0;
    adapter::perform_without_buffers(
        info,
        flags,
        keys,
        counts,
        pointers,
        multiplicities,
        windows,
        contents,
        decoding,
        &[],
        &mut value,
    )
}

// KEY_WRITE: the write key of the block replaced.
pub fn negvask_key_write(
    info: &mut [u64],
    flags: &mut [u8],
    keys: &mut [u64],
    counts: &mut [u32],
    pointers: &mut [u32],
    multiplicities: &mut [u16],
    windows: &mut [u64],
    contents: &mut [u8],
    port: u8,
    block: u16,
    credential: &[u8],
    key: &[u8],
) -> u32
    ensures { Effects (effect_by (key_write port block credential.now key.now)) (changed info.old info.new) (changed flags.old flags.new) (changed keys.old keys.new) (changed counts.old counts.new) (changed pointers.old pointers.new) (changed multiplicities.old multiplicities.new) (changed windows.old windows.new) (changed contents.old contents.new) result [] [] }
{
    let decoding = parameters::key_at(Mode::Writing, port, block, credential, key);
    let mut value = 0;
    adapter::perform_without_buffers(
        info,
        flags,
        keys,
        counts,
        pointers,
        multiplicities,
        windows,
        contents,
        decoding,
        &[],
        &mut value,
    )
}

// RENEW: the window for the mode, by a key.
pub fn negvask_renew(
    info: &mut [u64],
    flags: &mut [u8],
    keys: &mut [u64],
    counts: &mut [u32],
    pointers: &mut [u32],
    multiplicities: &mut [u16],
    windows: &mut [u64],
    contents: &mut [u8],
    mode: u8,
    block: u16,
    key: &[u8],
    interval: u32,
) -> u32
    ensures { Effects (effect_by (renew mode block key.now interval)) (changed info.old info.new) (changed flags.old flags.new) (changed keys.old keys.new) (changed counts.old counts.new) (changed pointers.old pointers.new) (changed multiplicities.old multiplicities.new) (changed windows.old windows.new) (changed contents.old contents.new) result [] [] }
{
    let decoding = parameters::renew_call(mode, block, key, interval);
    let mut value = 0;
    adapter::perform_without_buffers(
        info,
        flags,
        keys,
        counts,
        pointers,
        multiplicities,
        windows,
        contents,
        decoding,
        &[],
        &mut value,
    )
}

// FORCE: both windows of the block closed.
pub fn negvask_force(
    info: &mut [u64],
    flags: &mut [u8],
    keys: &mut [u64],
    counts: &mut [u32],
    pointers: &mut [u32],
    multiplicities: &mut [u16],
    windows: &mut [u64],
    contents: &mut [u8],
    block: u16,
) -> u32
    ensures { Effects (effect_by (force block)) (changed info.old info.new) (changed flags.old flags.new) (changed keys.old keys.new) (changed counts.old counts.new) (changed pointers.old pointers.new) (changed multiplicities.old multiplicities.new) (changed windows.old windows.new) (changed contents.old contents.new) result [] [] }
{
    let decoding = parameters::force_call(block);
    let mut value = 0;
    adapter::perform_without_buffers(
        info,
        flags,
        keys,
        counts,
        pointers,
        multiplicities,
        windows,
        contents,
        decoding,
        &[],
        &mut value,
    )
}

// TICK: `value` the new time.
pub fn negvask_tick(
    info: &mut [u64],
    flags: &mut [u8],
    keys: &mut [u64],
    counts: &mut [u32],
    pointers: &mut [u32],
    multiplicities: &mut [u16],
    windows: &mut [u64],
    contents: &mut [u8],
    seconds: u64,
    value: &mut u64,
) -> u32
    ensures { EffectsGiving (λ v. effect_by (tick seconds v)) (changed info.old info.new) (changed flags.old flags.new) (changed keys.old keys.new) (changed counts.old counts.new) (changed pointers.old pointers.new) (changed multiplicities.old multiplicities.new) (changed windows.old windows.new) (changed contents.old contents.new) (changed value.old value.new) result }
{
    let decoding = parameters::tick_call(seconds);
    adapter::perform_without_buffers(
        info,
        flags,
        keys,
        counts,
        pointers,
        multiplicities,
        windows,
        contents,
        decoding,
        &[],
        value,
    )
}

// FREE: `value` the number of free blocks.
pub fn negvask_count_free(
    info: &mut [u64],
    flags: &mut [u8],
    keys: &mut [u64],
    counts: &mut [u32],
    pointers: &mut [u32],
    multiplicities: &mut [u16],
    windows: &mut [u64],
    contents: &mut [u8],
    value: &mut u64,
) -> u32
    ensures { EffectsGiving (λ v. effect_by (free v)) (changed info.old info.new) (changed flags.old flags.new) (changed keys.old keys.new) (changed counts.old counts.new) (changed pointers.old pointers.new) (changed multiplicities.old multiplicities.new) (changed windows.old windows.new) (changed contents.old contents.new) (changed value.old value.new) result }
{
    let decoding = parameters::free_call();
    adapter::perform_without_buffers(
        info,
        flags,
        keys,
        counts,
        pointers,
        multiplicities,
        windows,
        contents,
        decoding,
        &[],
        value,
    )
}

// AUDIT: 0, or the refusal 1 or 2.
pub fn negvask_audit(
    info: &mut [u64],
    flags: &mut [u8],
    keys: &mut [u64],
    counts: &mut [u32],
    pointers: &mut [u32],
    multiplicities: &mut [u16],
    windows: &mut [u64],
    contents: &mut [u8],
) -> u32
    ensures { Effects (effect_by audit) (changed info.old info.new) (changed flags.old flags.new) (changed keys.old keys.new) (changed counts.old counts.new) (changed pointers.old pointers.new) (changed multiplicities.old multiplicities.new) (changed windows.old windows.new) (changed contents.old contents.new) result [] [] }
{
    let decoding = parameters::audit_call();
    let mut value = 0;
    adapter::perform_without_buffers(
        info,
        flags,
        keys,
        counts,
        pointers,
        multiplicities,
        windows,
        contents,
        decoding,
        &[],
        &mut value,
    )
}

// RENT: `cents` what the total comes to at the price.
pub fn negvask_rent(
    info: &mut [u64],
    flags: &mut [u8],
    keys: &mut [u64],
    counts: &mut [u32],
    pointers: &mut [u32],
    multiplicities: &mut [u16],
    windows: &mut [u64],
    contents: &mut [u8],
    price: u32,
    cents: &mut u64,
) -> u32
    ensures { EffectsGiving (λ v. effect_by (rent price v)) (changed info.old info.new) (changed flags.old flags.new) (changed keys.old keys.new) (changed counts.old counts.new) (changed pointers.old pointers.new) (changed multiplicities.old multiplicities.new) (changed windows.old windows.new) (changed contents.old contents.new) (changed cents.old cents.new) result }
{
    let decoding = parameters::rent_call(price);
    adapter::perform_without_buffers(
        info,
        flags,
        keys,
        counts,
        pointers,
        multiplicities,
        windows,
        contents,
        decoding,
        &[],
        cents,
    )
}

// SWEEP: the lowest waiting blocks overwritten and made free, at most so many; `swept` how many were.
pub fn negvask_sweep(
    info: &mut [u64],
    flags: &mut [u8],
    keys: &mut [u64],
    counts: &mut [u32],
    pointers: &mut [u32],
    multiplicities: &mut [u16],
    windows: &mut [u64],
    contents: &mut [u8],
    most: u32,
    swept: &mut u64,
) -> u32
    ensures { EffectsGiving (λ v. effect_by (sweep most v)) (changed info.old info.new) (changed flags.old flags.new) (changed keys.old keys.new) (changed counts.old counts.new) (changed pointers.old pointers.new) (changed multiplicities.old multiplicities.new) (changed windows.old windows.new) (changed contents.old contents.new) (changed swept.old swept.new) result }
{
    let decoding = parameters::sweep_call(most);
    adapter::perform_without_buffers(
        info,
        flags,
        keys,
        counts,
        pointers,
        multiplicities,
        windows,
        contents,
        decoding,
        &[],
        swept,
    )
}

// ---- FORMAT

// FORMAT: a fresh card on the lent tables.
pub fn negvask_format(
    info: &mut [u64],
    flags: &mut [u8],
    keys: &mut [u64],
    counts: &mut [u32],
    pointers: &mut [u32],
    multiplicities: &mut [u16],
    windows: &mut [u64],
    contents: &mut [u8],
    blocks: u64,
    roots: u64,
    bytes: u64,
) -> u32
    ensures { Effects (format_effect blocks roots bytes) (changed info.old info.new) (changed flags.old flags.new) (changed keys.old keys.new) (changed counts.old counts.new) (changed pointers.old pointers.new) (changed multiplicities.old multiplicities.new) (changed windows.old windows.new) (changed contents.old contents.new) result [] [] }
{
    if info.len() != parameters::RECORD_LENGTH {
        return 1;
    }
    let mut card = LentCard {
        info: parameters::load(info),
        flags,
        keys,
        counts,
        pointers,
        multiplicities,
        windows,
        contents,
    };
    let answer = format::format(&mut card, blocks as usize, roots as usize, bytes as usize);
    let mut value = 0;
    adapter::settle(info, card.info, answer, &mut value)
}

// ---- the reach report

// The blocks within reach of the given keys, into `places`; `value` how many.
pub fn negvask_reach(
    info: &[u64],
    flags: &[u8],
    keys: &[u64],
    counts: &[u32],
    pointers: &[u32],
    multiplicities: &[u16],
    windows: &[u64],
    contents: &[u8],
    given: &[u64],
    places: &mut [u16],
    value: &mut u64,
) -> u32
    ensures { EffectsListing (reach_effect given.now) (kept info.now) (kept flags.now) (kept keys.now) (kept counts.now) (kept pointers.now) (kept multiplicities.now) (kept windows.now) (kept contents.now) (changed places.old places.new) (changed value.old value.new) result }
{
    if info.len() != parameters::RECORD_LENGTH {
        return 1;
    }
    let card = SharedCard {
        info: parameters::load(info),
        flags,
        keys,
        counts,
        pointers,
        multiplicities,
        windows,
        contents,
    };
    let answer = reach::reach(card, given, places);
    adapter::report(answer, value)
}

// The sealed blocks whose write key, added alone to the given keys, would bring the block within reach, into `places`; `value` how many.
pub fn negvask_unlocking(
    info: &[u64],
    flags: &[u8],
    keys: &[u64],
    counts: &[u32],
    pointers: &[u32],
    multiplicities: &[u16],
    windows: &[u64],
    contents: &[u8],
    block: u16,
    given: &[u64],
    places: &mut [u16],
    value: &mut u64,
) -> u32
    ensures { EffectsListing (unlocking_effect given.now block) (kept info.now) (kept flags.now) (kept keys.now) (kept counts.now) (kept pointers.now) (kept multiplicities.now) (kept windows.now) (kept contents.now) (changed places.old places.new) (changed value.old value.new) result }
{
    if info.len() != parameters::RECORD_LENGTH {
        return 1;
    }
    let card = SharedCard {
        info: parameters::load(info),
        flags,
        keys,
        counts,
        pointers,
        multiplicities,
        windows,
        contents,
    };
    let answer = unlocking::unlocking(card, given, block, places);
    adapter::report(answer, value)
}

// ---- call records

// One call record: its kind, and its body or a longer part of an input that starts with it.
pub fn negvask_serve(
    info: &mut [u64],
    flags: &mut [u8],
    keys: &mut [u64],
    counts: &mut [u32],
    pointers: &mut [u32],
    multiplicities: &mut [u16],
    windows: &mut [u64],
    contents: &mut [u8],
    port: u8,
    kind: u8,
    body: &[u8],
    out: &mut [u8],
    places: &mut [u16],
    value: &mut u64,
) -> u32
    ensures { EffectsLent (λ o p v. effect_by (serve port kind body.now o p v)) (changed info.old info.new) (changed flags.old flags.new) (changed keys.old keys.new) (changed counts.old counts.new) (changed pointers.old pointers.new) (changed multiplicities.old multiplicities.new) (changed windows.old windows.new) (changed contents.old contents.new) (changed out.old out.new) (changed places.old places.new) (changed value.old value.new) result }
{
    let parsed = parameters::decode_at(port, kind, body);
    let decoding = parsed.decoding;
    let from = parsed.payload;
    let end = parsed.end;
    adapter::perform(
        info,
        flags,
        keys,
        counts,
        pointers,
        multiplicities,
        windows,
        contents,
        decoding,
        &body[from..end],
        out,
        places,
        value,
    )
}

// ---- a batch of call records

// Why a batch stopped: 13, or numbers that no refusal has. No `From`: these numbers are C's alone, and the player's last line has others.
fn stop_number(stop: Stop) -> u32
    ensures { result ≡ stop_number stop }
{
    match stop {
        Stop::Ended => 0,
        Stop::Short => 256,
        Stop::Refused => 13,
        Stop::Full => 257,
    }
}

// The records of an input that arrives at a port, served into `answers` with one audit: how many, and how far both went.
pub fn negvask_batch(
    info: &mut [u64],
    flags: &mut [u8],
    keys: &mut [u64],
    counts: &mut [u32],
    pointers: &mut [u32],
    multiplicities: &mut [u16],
    windows: &mut [u64],
    contents: &mut [u8],
    port: u8,
    input: &[u8],
    answers: &mut [u8],
    records: &mut u64,
    read: &mut u64,
    written: &mut u64,
) -> u32
    ensures { ServesBatch port (changed info.old info.new) (changed flags.old flags.new) (changed keys.old keys.new) (changed counts.old counts.new) (changed pointers.old pointers.new) (changed multiplicities.old multiplicities.new) (changed windows.old windows.new) (changed contents.old contents.new) (kept input.now) (changed answers.old answers.new) (changed records.old records.new) (changed read.old read.new) (changed written.old written.new) result }
{
    let Some(wire) = parameters::wire_of(port) else {
        return 13;
    };
    if info.len() != parameters::RECORD_LENGTH {
        return 1;
    }
    let mut card = LentCard {
        info: parameters::load(info),
        flags,
        keys,
        counts,
        pointers,
        multiplicities,
        windows,
        contents,
    };
    let part = batch::serve(wire, &mut card, input, answers);
    let stop = part.stop;
    parameters::store(info, card.info);
    *records = part.records;
    *read = part.read as u64;
    *written = part.written as u64;
    stop_number(stop)
}
