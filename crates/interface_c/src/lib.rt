// The functions that C links, each as the one of the same name in `interface`. include/negvask.h describes them.
#![tactic(auto)]

ghost use Rattle.std.specs.Prelude.{◌≡◌, []};
ghost use Rattle.card.specs.Lent.{kept, changed};
ghost use Rattle.adapter.specs.Effects.{format_effect, reach_effect, unlocking_effect, Effects, EffectsGiving, EffectsLent, EffectsListing};
ghost use Rattle.interface.specs.Functions.{read, write, alloc, alloc_contig, create, delete, delete_tree, key_read, key_write, renew, force, tick, free, audit, rent, sweep, serve, effect_by};
ghost use Rattle.interface.specs.Batch.{stop_number, ServesBatch};

// ---- the calls, by their operands

// READ: B bytes of the block into `out`.
#[unsafe(no_mangle)]
pub extern "C" fn negvask_read(
    info: &mut [u64],
    flags: &mut [u8],
    keys: &mut [u64],
    counts: &mut [u32],
    pointers: &mut [u32],
    multiplicities: &mut [u16],
    windows: &mut [u64],
    contents: &mut [u8],
    port: u8,
    block: u16,
    credential: &[u8],
    interval: u32,
    out: &mut [u8],
) -> u32
    ensures { Effects (effect_by (read port block credential.now interval out.old)) (changed info.old info.new) (changed flags.old flags.new) (changed keys.old keys.new) (changed counts.old counts.new) (changed pointers.old pointers.new) (changed multiplicities.old multiplicities.new) (changed windows.old windows.new) (changed contents.old contents.new) result out.new [] }
{
    interface::negvask_read(
        info,
        flags,
        keys,
        counts,
        pointers,
        multiplicities,
        windows,
        contents,
        port,
        block,
        credential,
        interval,
        out,
    )
}

// WRITE: `bytes` into the block.
#[unsafe(no_mangle)]
pub extern "C" fn negvask_write(
    info: &mut [u64],
    flags: &mut [u8],
    keys: &mut [u64],
    counts: &mut [u32],
    pointers: &mut [u32],
    multiplicities: &mut [u16],
    windows: &mut [u64],
    contents: &mut [u8],
    port: u8,
    block: u16,
    credential: &[u8],
    interval: u32,
    bytes: &[u8],
) -> u32
    ensures { Effects (effect_by (write port block credential.now interval bytes.now)) (changed info.old info.new) (changed flags.old flags.new) (changed keys.old keys.new) (changed counts.old counts.new) (changed pointers.old pointers.new) (changed multiplicities.old multiplicities.new) (changed windows.old windows.new) (changed contents.old contents.new) result [] [] }
{
    interface::negvask_write(
        info,
        flags,
        keys,
        counts,
        pointers,
        multiplicities,
        windows,
        contents,
        port,
        block,
        credential,
        interval,
        bytes,
    )
}

// ALLOC: `count` blocks below the block, their numbers into `places`.
#[unsafe(no_mangle)]
pub extern "C" fn negvask_alloc(
    info: &mut [u64],
    flags: &mut [u8],
    keys: &mut [u64],
    counts: &mut [u32],
    pointers: &mut [u32],
    multiplicities: &mut [u16],
    windows: &mut [u64],
    contents: &mut [u8],
    port: u8,
    block: u16,
    credential: &[u8],
    hint: u16,
    count: u8,
    places: &mut [u16],
) -> u32
    ensures { Effects (effect_by (alloc port block credential.now hint count places.old)) (changed info.old info.new) (changed flags.old flags.new) (changed keys.old keys.new) (changed counts.old counts.new) (changed pointers.old pointers.new) (changed multiplicities.old multiplicities.new) (changed windows.old windows.new) (changed contents.old contents.new) result [] places.new }
{
    interface::negvask_alloc(
        info,
        flags,
        keys,
        counts,
        pointers,
        multiplicities,
        windows,
        contents,
        port,
        block,
        credential,
        hint,
        count,
        places,
    )
}

// ALLOC_CONTIG: `count` adjoining blocks below the block, their numbers into `places`.
#[unsafe(no_mangle)]
pub extern "C" fn negvask_alloc_contig(
    info: &mut [u64],
    flags: &mut [u8],
    keys: &mut [u64],
    counts: &mut [u32],
    pointers: &mut [u32],
    multiplicities: &mut [u16],
    windows: &mut [u64],
    contents: &mut [u8],
    port: u8,
    block: u16,
    credential: &[u8],
    hint: u16,
    count: u8,
    places: &mut [u16],
) -> u32
    ensures { Effects (effect_by (alloc_contig port block credential.now hint count places.old)) (changed info.old info.new) (changed flags.old flags.new) (changed keys.old keys.new) (changed counts.old counts.new) (changed pointers.old pointers.new) (changed multiplicities.old multiplicities.new) (changed windows.old windows.new) (changed contents.old contents.new) result [] places.new }
{
    interface::negvask_alloc_contig(
        info,
        flags,
        keys,
        counts,
        pointers,
        multiplicities,
        windows,
        contents,
        port,
        block,
        credential,
        hint,
        count,
        places,
    )
}

// CREATE: a pointer from the source to the destination, each with its credential.
#[unsafe(no_mangle)]
pub extern "C" fn negvask_create(
    info: &mut [u64],
    flags: &mut [u8],
    keys: &mut [u64],
    counts: &mut [u32],
    pointers: &mut [u32],
    multiplicities: &mut [u16],
    windows: &mut [u64],
    contents: &mut [u8],
    port: u8,
    source: u16,
    credential: &[u8],
    destination: u16,
    second: &[u8],
) -> u32
    ensures { Effects (effect_by (create port source credential.now destination second.now)) (changed info.old info.new) (changed flags.old flags.new) (changed keys.old keys.new) (changed counts.old counts.new) (changed pointers.old pointers.new) (changed multiplicities.old multiplicities.new) (changed windows.old windows.new) (changed contents.old contents.new) result [] [] }
{
    interface::negvask_create(
        info,
        flags,
        keys,
        counts,
        pointers,
        multiplicities,
        windows,
        contents,
        port,
        source,
        credential,
        destination,
        second,
    )
}

// DELETE: the pointer from the source to the destination; `value` 1 if that freed the destination, else 0.
#[unsafe(no_mangle)]
pub extern "C" fn negvask_delete(
    info: &mut [u64],
    flags: &mut [u8],
    keys: &mut [u64],
    counts: &mut [u32],
    pointers: &mut [u32],
    multiplicities: &mut [u16],
    windows: &mut [u64],
    contents: &mut [u8],
    port: u8,
    source: u16,
    credential: &[u8],
    destination: u16,
    value: &mut u64,
) -> u32
    ensures { EffectsGiving (λ v. effect_by (delete port source credential.now destination v)) (changed info.old info.new) (changed flags.old flags.new) (changed keys.old keys.new) (changed counts.old counts.new) (changed pointers.old pointers.new) (changed multiplicities.old multiplicities.new) (changed windows.old windows.new) (changed contents.old contents.new) (changed value.old value.new) result }
{
    interface::negvask_delete(
        info,
        flags,
        keys,
        counts,
        pointers,
        multiplicities,
        windows,
        contents,
        port,
        source,
        credential,
        destination,
        value,
    )
}

// DELETE_TREE: the pointer from the source to the destination wholly, and all blocks that are left without one; `value` how many were freed.
#[unsafe(no_mangle)]
pub extern "C" fn negvask_delete_tree(
    info: &mut [u64],
    flags: &mut [u8],
    keys: &mut [u64],
    counts: &mut [u32],
    pointers: &mut [u32],
    multiplicities: &mut [u16],
    windows: &mut [u64],
    contents: &mut [u8],
    port: u8,
    source: u16,
    credential: &[u8],
    destination: u16,
    value: &mut u64,
) -> u32
    ensures { EffectsGiving (λ v. effect_by (delete_tree port source credential.now destination v)) (changed info.old info.new) (changed flags.old flags.new) (changed keys.old keys.new) (changed counts.old counts.new) (changed pointers.old pointers.new) (changed multiplicities.old multiplicities.new) (changed windows.old windows.new) (changed contents.old contents.new) (changed value.old value.new) result }
{
    interface::negvask_delete_tree(
        info,
        flags,
        keys,
        counts,
        pointers,
        multiplicities,
        windows,
        contents,
        port,
        source,
        credential,
        destination,
        value,
    )
}

// KEY_READ: the read key of the block replaced.
#[unsafe(no_mangle)]
pub extern "C" fn negvask_key_read(
    info: &mut [u64],
    flags: &mut [u8],
    keys: &mut [u64],
    counts: &mut [u32],
    pointers: &mut [u32],
    multiplicities: &mut [u16],
    windows: &mut [u64],
    contents: &mut [u8],
    port: u8,
    block: u16,
    credential: &[u8],
    key: &[u8],
) -> u32
    ensures { Effects (effect_by (key_read port block credential.now key.now)) (changed info.old info.new) (changed flags.old flags.new) (changed keys.old keys.new) (changed counts.old counts.new) (changed pointers.old pointers.new) (changed multiplicities.old multiplicities.new) (changed windows.old windows.new) (changed contents.old contents.new) result [] [] }
{
    interface::negvask_key_read(
        info,
        flags,
        keys,
        counts,
        pointers,
        multiplicities,
        windows,
        contents,
        port,
        block,
        credential,
        key,
    )
}

// KEY_WRITE: the write key of the block replaced.
#[unsafe(no_mangle)]
pub extern "C" fn negvask_key_write(
    info: &mut [u64],
    flags: &mut [u8],
    keys: &mut [u64],
    counts: &mut [u32],
    pointers: &mut [u32],
    multiplicities: &mut [u16],
    windows: &mut [u64],
    contents: &mut [u8],
    port: u8,
    block: u16,
    credential: &[u8],
    key: &[u8],
) -> u32
    ensures { Effects (effect_by (key_write port block credential.now key.now)) (changed info.old info.new) (changed flags.old flags.new) (changed keys.old keys.new) (changed counts.old counts.new) (changed pointers.old pointers.new) (changed multiplicities.old multiplicities.new) (changed windows.old windows.new) (changed contents.old contents.new) result [] [] }
{
    interface::negvask_key_write(
        info,
        flags,
        keys,
        counts,
        pointers,
        multiplicities,
        windows,
        contents,
        port,
        block,
        credential,
        key,
    )
}

// RENEW: the window for the mode, by a key.
#[unsafe(no_mangle)]
pub extern "C" fn negvask_renew(
    info: &mut [u64],
    flags: &mut [u8],
    keys: &mut [u64],
    counts: &mut [u32],
    pointers: &mut [u32],
    multiplicities: &mut [u16],
    windows: &mut [u64],
    contents: &mut [u8],
    mode: u8,
    block: u16,
    key: &[u8],
    interval: u32,
) -> u32
    ensures { Effects (effect_by (renew mode block key.now interval)) (changed info.old info.new) (changed flags.old flags.new) (changed keys.old keys.new) (changed counts.old counts.new) (changed pointers.old pointers.new) (changed multiplicities.old multiplicities.new) (changed windows.old windows.new) (changed contents.old contents.new) result [] [] }
{
    interface::negvask_renew(
        info,
        flags,
        keys,
        counts,
        pointers,
        multiplicities,
        windows,
        contents,
        mode,
        block,
        key,
        interval,
    )
}

// FORCE: both windows of the block closed.
#[unsafe(no_mangle)]
pub extern "C" fn negvask_force(
    info: &mut [u64],
    flags: &mut [u8],
    keys: &mut [u64],
    counts: &mut [u32],
    pointers: &mut [u32],
    multiplicities: &mut [u16],
    windows: &mut [u64],
    contents: &mut [u8],
    block: u16,
) -> u32
    ensures { Effects (effect_by (force block)) (changed info.old info.new) (changed flags.old flags.new) (changed keys.old keys.new) (changed counts.old counts.new) (changed pointers.old pointers.new) (changed multiplicities.old multiplicities.new) (changed windows.old windows.new) (changed contents.old contents.new) result [] [] }
{
    interface::negvask_force(
        info,
        flags,
        keys,
        counts,
        pointers,
        multiplicities,
        windows,
        contents,
        block,
    )
}

// TICK: `value` the new time.
#[unsafe(no_mangle)]
pub extern "C" fn negvask_tick(
    info: &mut [u64],
    flags: &mut [u8],
    keys: &mut [u64],
    counts: &mut [u32],
    pointers: &mut [u32],
    multiplicities: &mut [u16],
    windows: &mut [u64],
    contents: &mut [u8],
    seconds: u64,
    value: &mut u64,
) -> u32
    ensures { EffectsGiving (λ v. effect_by (tick seconds v)) (changed info.old info.new) (changed flags.old flags.new) (changed keys.old keys.new) (changed counts.old counts.new) (changed pointers.old pointers.new) (changed multiplicities.old multiplicities.new) (changed windows.old windows.new) (changed contents.old contents.new) (changed value.old value.new) result }
{
    interface::negvask_tick(
        info,
        flags,
        keys,
        counts,
        pointers,
        multiplicities,
        windows,
        contents,
        seconds,
        value,
    )
}

// FREE: `value` the number of free blocks.
#[unsafe(no_mangle)]
pub extern "C" fn negvask_count_free(
    info: &mut [u64],
    flags: &mut [u8],
    keys: &mut [u64],
    counts: &mut [u32],
    pointers: &mut [u32],
    multiplicities: &mut [u16],
    windows: &mut [u64],
    contents: &mut [u8],
    value: &mut u64,
) -> u32
    ensures { EffectsGiving (λ v. effect_by (free v)) (changed info.old info.new) (changed flags.old flags.new) (changed keys.old keys.new) (changed counts.old counts.new) (changed pointers.old pointers.new) (changed multiplicities.old multiplicities.new) (changed windows.old windows.new) (changed contents.old contents.new) (changed value.old value.new) result }
{
    interface::negvask_count_free(
        info,
        flags,
        keys,
        counts,
        pointers,
        multiplicities,
        windows,
        contents,
        value,
    )
}

// AUDIT: 0, or the refusal 1 or 2.
#[unsafe(no_mangle)]
pub extern "C" fn negvask_audit(
    info: &mut [u64],
    flags: &mut [u8],
    keys: &mut [u64],
    counts: &mut [u32],
    pointers: &mut [u32],
    multiplicities: &mut [u16],
    windows: &mut [u64],
    contents: &mut [u8],
) -> u32
    ensures { Effects (effect_by audit) (changed info.old info.new) (changed flags.old flags.new) (changed keys.old keys.new) (changed counts.old counts.new) (changed pointers.old pointers.new) (changed multiplicities.old multiplicities.new) (changed windows.old windows.new) (changed contents.old contents.new) result [] [] }
{
    interface::negvask_audit(
        info,
        flags,
        keys,
        counts,
        pointers,
        multiplicities,
        windows,
        contents,
    )
}

// RENT: `cents` what the total comes to at the price.
#[unsafe(no_mangle)]
pub extern "C" fn negvask_rent(
    info: &mut [u64],
    flags: &mut [u8],
    keys: &mut [u64],
    counts: &mut [u32],
    pointers: &mut [u32],
    multiplicities: &mut [u16],
    windows: &mut [u64],
    contents: &mut [u8],
    price: u32,
    cents: &mut u64,
) -> u32
    ensures { EffectsGiving (λ v. effect_by (rent price v)) (changed info.old info.new) (changed flags.old flags.new) (changed keys.old keys.new) (changed counts.old counts.new) (changed pointers.old pointers.new) (changed multiplicities.old multiplicities.new) (changed windows.old windows.new) (changed contents.old contents.new) (changed cents.old cents.new) result }
{
    interface::negvask_rent(
        info,
        flags,
        keys,
        counts,
        pointers,
        multiplicities,
        windows,
        contents,
        price,
        cents,
    )
}

// SWEEP: the lowest waiting blocks overwritten and made free, at most so many; `swept` how many were.
#[unsafe(no_mangle)]
pub extern "C" fn negvask_sweep(
    info: &mut [u64],
    flags: &mut [u8],
    keys: &mut [u64],
    counts: &mut [u32],
    pointers: &mut [u32],
    multiplicities: &mut [u16],
    windows: &mut [u64],
    contents: &mut [u8],
    most: u32,
    swept: &mut u64,
) -> u32
    ensures { EffectsGiving (λ v. effect_by (sweep most v)) (changed info.old info.new) (changed flags.old flags.new) (changed keys.old keys.new) (changed counts.old counts.new) (changed pointers.old pointers.new) (changed multiplicities.old multiplicities.new) (changed windows.old windows.new) (changed contents.old contents.new) (changed swept.old swept.new) result }
{
    interface::negvask_sweep(
        info,
        flags,
        keys,
        counts,
        pointers,
        multiplicities,
        windows,
        contents,
        most,
        swept,
    )
}

// ---- FORMAT

// FORMAT: a fresh card on the lent tables.
#[unsafe(no_mangle)]
pub extern "C" fn negvask_format(
    info: &mut [u64],
    flags: &mut [u8],
    keys: &mut [u64],
    counts: &mut [u32],
    pointers: &mut [u32],
    multiplicities: &mut [u16],
    windows: &mut [u64],
    contents: &mut [u8],
    blocks: u64,
    roots: u64,
    bytes: u64,
) -> u32
    ensures { Effects (format_effect blocks roots bytes) (changed info.old info.new) (changed flags.old flags.new) (changed keys.old keys.new) (changed counts.old counts.new) (changed pointers.old pointers.new) (changed multiplicities.old multiplicities.new) (changed windows.old windows.new) (changed contents.old contents.new) result [] [] }
{
    interface::negvask_format(
        info,
        flags,
        keys,
        counts,
        pointers,
        multiplicities,
        windows,
        contents,
        blocks,
        roots,
        bytes,
    )
}

// ---- the reach report

// The blocks within reach of the given keys, into `places`; `value` how many.
#[unsafe(no_mangle)]
pub extern "C" fn negvask_reach(
    info: &[u64],
    flags: &[u8],
    keys: &[u64],
    counts: &[u32],
    pointers: &[u32],
    multiplicities: &[u16],
    windows: &[u64],
    contents: &[u8],
    given: &[u64],
    places: &mut [u16],
    value: &mut u64,
) -> u32
    ensures { EffectsListing (reach_effect given.now) (kept info.now) (kept flags.now) (kept keys.now) (kept counts.now) (kept pointers.now) (kept multiplicities.now) (kept windows.now) (kept contents.now) (changed places.old places.new) (changed value.old value.new) result }
{
    interface::negvask_reach(
        info,
        flags,
        keys,
        counts,
        pointers,
        multiplicities,
        windows,
        contents,
        given,
        places,
        value,
    )
}

// The sealed blocks whose write key, added alone to the given keys, would bring the block within reach, into `places`; `value` how many.
#[unsafe(no_mangle)]
pub extern "C" fn negvask_unlocking(
    info: &[u64],
    flags: &[u8],
    keys: &[u64],
    counts: &[u32],
    pointers: &[u32],
    multiplicities: &[u16],
    windows: &[u64],
    contents: &[u8],
    block: u16,
    given: &[u64],
    places: &mut [u16],
    value: &mut u64,
) -> u32
    ensures { EffectsListing (unlocking_effect given.now block) (kept info.now) (kept flags.now) (kept keys.now) (kept counts.now) (kept pointers.now) (kept multiplicities.now) (kept windows.now) (kept contents.now) (changed places.old places.new) (changed value.old value.new) result }
{
    interface::negvask_unlocking(
        info,
        flags,
        keys,
        counts,
        pointers,
        multiplicities,
        windows,
        contents,
        block,
        given,
        places,
        value,
    )
}

// ---- call records

// One call record: its kind, and its body or a longer part of an input that starts with it.
#[unsafe(no_mangle)]
pub extern "C" fn negvask_serve(
    info: &mut [u64],
    flags: &mut [u8],
    keys: &mut [u64],
    counts: &mut [u32],
    pointers: &mut [u32],
    multiplicities: &mut [u16],
    windows: &mut [u64],
    contents: &mut [u8],
    port: u8,
    kind: u8,
    body: &[u8],
    out: &mut [u8],
    places: &mut [u16],
    value: &mut u64,
) -> u32
    ensures { EffectsLent (λ o p v. effect_by (serve port kind body.now o p v)) (changed info.old info.new) (changed flags.old flags.new) (changed keys.old keys.new) (changed counts.old counts.new) (changed pointers.old pointers.new) (changed multiplicities.old multiplicities.new) (changed windows.old windows.new) (changed contents.old contents.new) (changed out.old out.new) (changed places.old places.new) (changed value.old value.new) result }
{
    interface::negvask_serve(
        info,
        flags,
        keys,
        counts,
        pointers,
        multiplicities,
        windows,
        contents,
        port,
        kind,
        body,
        out,
        places,
        value,
    )
}

// ---- a batch of call records

// The records of an input that arrives at a port, served into `answers` with one audit: how many, and how far both went.
#[unsafe(no_mangle)]
pub extern "C" fn negvask_batch(
    info: &mut [u64],
    flags: &mut [u8],
    keys: &mut [u64],
    counts: &mut [u32],
    pointers: &mut [u32],
    multiplicities: &mut [u16],
    windows: &mut [u64],
    contents: &mut [u8],
    port: u8,
    input: &[u8],
    answers: &mut [u8],
    records: &mut u64,
    read: &mut u64,
    written: &mut u64,
) -> u32
    ensures { ServesBatch port (changed info.old info.new) (changed flags.old flags.new) (changed keys.old keys.new) (changed counts.old counts.new) (changed pointers.old pointers.new) (changed multiplicities.old multiplicities.new) (changed windows.old windows.new) (changed contents.old contents.new) (kept input.now) (changed answers.old answers.new) (changed records.old records.new) (changed read.old read.new) (changed written.old written.new) result }
{
    interface::negvask_batch(
        info,
        flags,
        keys,
        counts,
        pointers,
        multiplicities,
        windows,
        contents,
        port,
        input,
        answers,
        records,
        read,
        written,
    )
}
