// ALLOC and ALLOC_CONTIG: blocks are picked on one walk outward from the wanted one, or a run of them is found, then taken and pointed to.
#![tactic(auto)]

ghost use Rattle.std.specs.Prelude.{◌≡◌, [], length, ◌+◌, ◌≤◌};
ghost use Rattle.card.specs.Lists.{numbers_from};
ghost use Rattle.card.specs.Contents.{overwrite};
ghost use Rattle.card.specs.Lent.{Performs, SameTables, lent_card, shared_card};
ghost use Rattle.card.specs.SoundCard.{SoundCard};
ghost use Rattle.card.specs.Plan.{first, changes};
ghost use Rattle.card.specs.Calls.{wanted, picks, take_all};
ghost use Rattle.card.specs.Session.{request, perform_sound};
ghost use Rattle.card.specs.declared.Call.TheVariants.{Alloc, AllocContig};
ghost use Rattle.tables.specs.Free.{free_below};
ghost use Rattle.checks.specs.Checked.{by_refusal, checked};
ghost use Rattle.runs.specs.Runs.{starts_in, nearest_of};
ghost use Rattle.allocation.specs.Walk.{Spread, NextBlock, CanPick};
ghost use Rattle.allocation.specs.Taking.{CanTake, BlockTaken, CanTakeAll};
ghost use Rattle.allocation.specs.SharedChecks.{bad_operands, shared_checks};
ghost use Rattle.allocation.specs.RunChecked.{run_checked};

use card::{
    AllocOperands, Answer, Info, LentCard, MOST_BLOCKS, Mode, NO_HINT, Port, Refusal, SharedCard,
};

// ---- the walk

// The block to pass next on the walk outward from the wanted one, where those from `low` on and below `high` are passed.
fn next(want: usize, blocks: usize, low: usize, high: usize) -> usize
    requires { Spread want blocks low high }
    ensures { NextBlock want blocks low high result }
{
    if low == 0 {
        return high;
    }
    if high == blocks {
        return low - 1;
    }
    if want - low + 1 <= high - want {
        return low - 1;
    }
    high
}

// The numbers of the `count` blocks that ALLOC picks, on one walk outward from the wanted one, go into the first places.
fn pick_all(flags: &[u8], want: usize, count: usize, places: &mut [u16])
    requires { CanPick flags.now want count places.old }
    ensures { places.new ≡ overwrite places.old 0 (picks want count (free_below flags.now (length flags.now))) }
{
    let blocks = flags.len();
    let mut low = want;
    let mut high = want;
    let mut taken = 0;
    // How many blocks are passed until enough are taken is not known at the start.
    while taken < count {
        let block = next(want, blocks, low, high);
        if block < low {
            low = block;
        } else {
            high = block + 1;
        }
        if flags::free(flags[block]) {
            places[taken] = block as u16;
            taken += 1;
        }
    }
}

// So many numbers in a row go into the first places.
fn list_run(first: usize, count: usize, places: &mut [u16])
    requires count_bound { first + count ≤ 65536 }
    requires count_in_bounds { count ≤ length places.old }
    ensures { places.new ≡ overwrite places.old 0 (numbers_from first count) }
{
    for listed in 0..count {
        places[listed] = (first + listed) as u16;
    }
}

// ---- blocks taken

// A free block is allocated, counted once more, and filled with zeros in its own part of the contents.
fn take(bytes: usize, flags: &mut [u8], counts: &mut [u32], contents: &mut [u8], block: usize)
    requires { CanTake bytes flags.old counts.old contents.old block }
    ensures { BlockTaken bytes block flags.old counts.old contents.old flags.new counts.new contents.new }
{
    let at = block * bytes;
    let end = at + bytes;
    tables::clear(&mut contents[at..end]);
    flags[block] = 1;
    counts[block] += 1;
}

// Each of the blocks is taken, and then the reference points to each.
fn take_all(card: &mut LentCard, reference: u16, numbers: &[u16])
    requires { CanTakeAll (lent_card card.old) reference numbers.now }
    ensures same { SameTables card.old card.new }
    ensures takes { lent_card card.new ≡ changes (lent_card card.old) (take_all reference numbers.now) }
{
    let bytes = card.info.bytes;
    let used = card.info.used;
    let count = numbers.len();
    // The pointers to the blocks taken, ascending.
    let mut added = [0u32; MOST_BLOCKS as usize];
    for (taken, &number) in numbers.iter().enumerate() {
        let pointer = (reference as u32) * 65536 + (number as u32);
        take(
            bytes,
            card.flags,
            card.counts,
            card.contents,
            number as usize,
        );
        tables::insert(&mut added, taken, pointer);
    }
    tables::merge(card.pointers, card.multiplicities, used, &added, count);
    card.info = tables::with_used(card.info, used + count);
}

// ---- the call

// The operands are out of range, or there are fewer places than blocks asked for.
fn bad_operands(info: Info, hint: u16, count: u8, places: usize) -> bool
    ensures { result ≡ bad_operands info.blocks hint count places }
{
    let near = hint as usize;
    let number = count as usize;
    (count == 0)
        | (MOST_BLOCKS < count)
        | (!(near < info.blocks) & !(hint == NO_HINT))
        | (places < number)
}

// Without a hint the lowest block is wanted.
fn wanted(hint: u16) -> usize
    ensures { result ≡ wanted hint }
{
    if hint == NO_HINT { 0 } else { hint as usize }
}

// The checks that ALLOC and ALLOC_CONTIG share: those of ALLOC before the last, which looks at the places for pointers.
fn shared_check(
    card: SharedCard,
    port: Port,
    o: AllocOperands,
    places: &[u16],
) -> Result<(), Refusal>
    requires { SoundCard (shared_card card) }
    ensures { result ≡ by_refusal (first (shared_checks port (shared_card card.entry) o (length places.now))) }
{
    let credential = o.credential;
    let from = o.reference as usize;
    let count = o.count as usize;
    if bad_operands(card.info, o.hint, o.count, places.len()) {
        return Err(Refusal::BadOperand);
    }
    if access::missing(card.info, card.flags, from) {
        return Err(Refusal::NotAllocated);
    }
    if access::root_at_host(port, card.info, from) {
        return Err(Refusal::IsRoot);
    }
    if !access::admits(port, card, Mode::Writing, from, credential) {
        return Err(Refusal::NotOpened);
    }
    if tables::count_free(card.flags) < count {
        return Err(Refusal::TooFewBlocks);
    }
    Ok(())
}

// The checks of ALLOC.
fn alloc_check(
    card: SharedCard,
    port: Port,
    o: AllocOperands,
    places: &[u16],
) -> Result<(), Refusal>
    requires { SoundCard (shared_card card) }
    ensures { result ≡ checked port (shared_card card.entry) (request (Alloc o) [] [] places.now) }
{
    shared_check(card, port, o, places)?;
    if card.pointers.len() < card.info.used + (o.count as usize) {
        return Err(Refusal::TooFewPlaces);
    }
    Ok(())
}

// ALLOC on a card that has been audited.
pub fn alloc_sound(card: &mut LentCard, port: Port, o: AllocOperands, places: &mut [u16]) -> Answer
    requires { SoundCard (lent_card card.old) }
    ensures same { SameTables card.old card.new }
    ensures performs { Performs (λ c. perform_sound port c (request (Alloc o) [] [] places.old)) card.old card.new result [] places.new }
{
    let view = card.shared();
    alloc_check(view, port, o, places)?;
    let count = o.count as usize;
    pick_all(view.flags, wanted(o.hint), count, places);
    take_all(card, o.reference, &places[..count]);
    Ok(None)
}

// The checks of ALLOC_CONTIG, and the first block of the run that they find.
fn alloc_contig_check(
    card: SharedCard,
    port: Port,
    o: AllocOperands,
    places: &[u16],
) -> Result<usize, Refusal>
    requires { SoundCard (shared_card card) }
    ensures { result ≡ run_checked (checked port (shared_card card.entry) (request (AllocContig o) [] [] places.now)) (nearest_of (wanted o.hint) (starts_in card.entry.flags.now o.count)) }
{
    shared_check(card, port, o, places)?;
    let count = o.count as usize;
    let Some(first) = runs::nearest_run(card.flags, wanted(o.hint), count) else {
        return Err(Refusal::NoRun);
    };
    if card.pointers.len() < card.info.used + count {
        return Err(Refusal::TooFewPlaces);
    }
    Ok(first)
}

// ALLOC_CONTIG on a card that has been audited.
pub fn alloc_contig_sound(
    card: &mut LentCard,
    port: Port,
    o: AllocOperands,
    places: &mut [u16],
) -> Answer
    requires { SoundCard (lent_card card.old) }
    ensures same { SameTables card.old card.new }
    ensures performs { Performs (λ c. perform_sound port c (request (AllocContig o) [] [] places.old)) card.old card.new result [] places.new }
{
    let first = alloc_contig_check(card.shared(), port, o, places)?;
    let count = o.count as usize;
    list_run(first, count, places);
    take_all(card, o.reference, &places[..count]);
    Ok(None)
}
