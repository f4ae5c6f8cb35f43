// Audits good and damaged cards of N 16, B 512 and P 32. Writes a line for each: its name, then 0 if sound, 1 if misshapen, 2 if unsound.
#![tactic(auto)]

ghost use Rattle.std.specs.Prelude.{◌≡◌};
ghost use Rattle.card.specs.Plan.{with_used, with_time};
ghost use Rattle.card.specs.Calls.{fresh_info};

use card::{Info, SharedCard, Verdict};

// The table that is lent without its elements.
#[derive(Drop)]
#[derive(Clone, Copy)]
enum Lack {
    Nothing,
    Flags,
    Keys,
    Counts,
    Pointers,
    Multiplicities,
    Windows,
    Contents,
}

// One store into the good card's record or into one of its tables; or a fourth pointer, its
// multiplicity, a block and that block's count.
#[derive(Drop)]
#[derive(Clone, Copy)]
enum Fault {
    Nothing,
    Blocks(usize),
    Roots(usize),
    Bytes(usize),
    Used(usize),
    Time(u64),
    Total(u64),
    Flag(usize, u8),
    Key(usize, u64),
    Count(usize, u32),
    Pointer(usize, u32),
    Multiplicity(usize, u16),
    Window(usize, u64),
    Fourth(u32, u16, usize, u32),
}

// The good card's record, of such N, R and B: three pointers are in use.
fn good_record(blocks: usize, roots: usize, bytes: usize) -> Info
    ensures { result ≡ with_time (with_used (fresh_info blocks roots bytes) 3) 100 0 }
{
    tables::with_time(
        tables::with_used(tables::fresh(blocks, roots, bytes), 3),
        100,
        0,
    )
}

// Audits the card and writes its line.
fn show(rt: &impl Print, name: &[u8], card: SharedCard) {
    let _ = rt.write_all(name);
    let _ = rt.write_all(match audit::audit(card) {
        Verdict::Sound => b" 0\n",
        Verdict::Misshapen => b" 1\n",
        Verdict::Unsound => b" 2\n",
    });
}

// The good card with one fault: root 0, block 1 with both keys, block 2 without, block 6 waiting, pointers
// 0 to 1, 0 to 2, made twice, and 1 to 2, and block 0's read window at its latest end.
fn damage(rt: &impl Print, name: &[u8], fault: Fault) {
    let mut info = good_record(16, 1, 512);
    let mut flags = [0u8; 16];
    let mut keys = [0u64; 64];
    let mut counts = [0u32; 16];
    let mut pointers = [0u32; 32];
    let mut multiplicities = [0u16; 32];
    let mut windows = [0u64; 32];
    flags[0] = 1;
    flags[1] = 7;
    flags[2] = 1;
    flags[6] = 8;
    keys[4] = 1;
    keys[7] = 2;
    counts[1] = 1;
    counts[2] = 3;
    pointers[0] = 1;
    pointers[1] = 2;
    pointers[2] = 65538;
    multiplicities[0] = 1;
    multiplicities[1] = 2;
    multiplicities[2] = 1;
    windows[0] = 86500;
    match fault {
        Fault::Nothing => {}
        Fault::Blocks(to) => info = good_record(to, 1, 512),
        Fault::Roots(to) => info = good_record(16, to, 512),
        Fault::Bytes(to) => info = good_record(16, 1, to),
        Fault::Used(to) => info = tables::with_used(info, to),
        Fault::Time(to) => info = tables::with_time(info, to, info.total),
        Fault::Total(to) => info = tables::with_time(info, info.time, to),
        Fault::Flag(at, to) => {
            if at < 16 {
                flags[at] = to;
            }
        }
        Fault::Key(at, to) => {
            if at < 64 {
                keys[at] = to;
            }
        }
        Fault::Count(at, to) => {
            if at < 16 {
                counts[at] = to;
            }
        }
        Fault::Pointer(at, to) => {
            if at < 32 {
                pointers[at] = to;
            }
        }
        Fault::Multiplicity(at, to) => {
            if at < 32 {
                multiplicities[at] = to;
            }
        }
        Fault::Window(at, to) => {
            if at < 32 {
                windows[at] = to;
            }
        }
        Fault::Fourth(w, times, b, count) => {
            info = tables::with_used(info, 4);
            pointers[3] = w;
            multiplicities[3] = times;
            if b < 16 {
                counts[b] = count;
            }
        }
    }
    show(
        rt,
        name,
        SharedCard {
            info,
            flags: &flags,
            keys: &keys,
            counts: &counts,
            pointers: &pointers,
            multiplicities: &multiplicities,
            windows: &windows,
            contents: &[0u8; 8192],
        },
    );
}

// Clauses of soundness on blocks.
fn faults_of_blocks(rt: &impl Print) {
    damage(rt, b"good", Fault::Nothing);
    damage(rt, b"zero-key", Fault::Key(4, 0));
    damage(rt, b"allocated-with-flag-8", Fault::Flag(0, 9));
    damage(rt, b"flags-above-8", Fault::Flag(0, 17));
    damage(rt, b"root-unallocated", Fault::Flag(0, 0));
    damage(rt, b"free-with-flags", Fault::Flag(5, 2));
    damage(rt, b"free-with-key", Fault::Key(20, 1));
    damage(rt, b"free-with-count", Fault::Count(5, 1));
    damage(rt, b"free-with-window", Fault::Window(11, 1));
    damage(rt, b"absent-read-high", Fault::Key(8, 1));
    damage(rt, b"absent-read-low", Fault::Key(9, 1));
    damage(rt, b"absent-write-high", Fault::Key(10, 1));
    damage(rt, b"absent-write-low", Fault::Key(11, 1));
}

// A waiting block has flag 8 alone and is no root.
fn faults_of_waiting_flags(rt: &impl Print) {
    damage(rt, b"none-waiting", Fault::Flag(6, 0));
    damage(rt, b"two-waiting", Fault::Flag(5, 8));
    damage(rt, b"last-waiting", Fault::Flag(15, 8));
    damage(rt, b"waiting-allocated", Fault::Flag(6, 9));
    damage(rt, b"waiting-read-flag", Fault::Flag(6, 10));
    damage(rt, b"waiting-write-flag", Fault::Flag(6, 12));
    damage(rt, b"waiting-both-flags", Fault::Flag(6, 14));
    damage(rt, b"waiting-flag-16", Fault::Flag(6, 16));
    damage(rt, b"waiting-flag-24", Fault::Flag(6, 24));
    damage(rt, b"waiting-root", Fault::Flag(0, 8));
}

// A waiting block has neither keys nor windows nor pointers.
fn faults_of_waiting_rows(rt: &impl Print) {
    damage(rt, b"waiting-pointed-to", Fault::Flag(2, 8));
    damage(rt, b"waiting-read-high", Fault::Key(24, 1));
    damage(rt, b"waiting-read-low", Fault::Key(25, 1));
    damage(rt, b"waiting-write-high", Fault::Key(26, 1));
    damage(rt, b"waiting-write-low", Fault::Key(27, 1));
    damage(rt, b"waiting-with-count", Fault::Count(6, 1));
    damage(rt, b"waiting-read-window", Fault::Window(12, 1));
    damage(rt, b"waiting-write-window", Fault::Window(13, 1));
    damage(rt, b"source-waiting", Fault::Pointer(2, 393218));
    damage(rt, b"destination-waiting", Fault::Pointer(2, 65542));
    lengthen(rt, b"waiting-counted", 131078, 1, 6, 1);
}

// Clauses of soundness on pointers, counts and windows.
fn faults_of_pointers(rt: &impl Print) {
    damage(rt, b"equal-pointers", Fault::Pointer(1, 1));
    damage(rt, b"falling-pointers", Fault::Pointer(0, 3));
    damage(rt, b"unused-not-zero", Fault::Pointer(3, 65539));
    damage(rt, b"last-unused-not-zero", Fault::Pointer(31, 1));
    damage(rt, b"source-unallocated", Fault::Pointer(2, 327682));
    damage(rt, b"source-above", Fault::Pointer(2, 1048578));
    damage(rt, b"destination-unallocated", Fault::Pointer(2, 65541));
    damage(rt, b"destination-above", Fault::Pointer(2, 65552));
    damage(rt, b"destination-root", Fault::Pointer(2, 65536));
    damage(rt, b"ends-equal", Fault::Pointer(2, 131074));
    damage(rt, b"count-low", Fault::Count(2, 1));
    damage(rt, b"unpointed", Fault::Flag(5, 1));
    damage(rt, b"read-window-late", Fault::Window(0, 86501));
    damage(rt, b"write-window-late", Fault::Window(5, 86501));
    damage(rt, b"write-window-latest", Fault::Window(5, 86500));
}

// The good card with a fourth pointer and one count.
fn lengthen(rt: &impl Print, name: &[u8], w: u32, times: u16, b: usize, count: u32) {
    damage(rt, name, Fault::Fourth(w, times, b, count));
}

// Multiplicities, counts that are their sums, and the pointers that a count alone gives away.
fn faults_of_multiplicities(rt: &impl Print) {
    damage(rt, b"multiplicity-low", Fault::Multiplicity(1, 1));
    damage(rt, b"multiplicity-behind", Fault::Multiplicity(3, 1));
    damage(rt, b"last-multiplicity-behind", Fault::Multiplicity(31, 1));
    damage(rt, b"count-of-places", Fault::Count(2, 2));
    lengthen(rt, b"fourth-pointer", 131073, 1, 1, 2);
    lengthen(rt, b"multiplicity-zero", 131073, 0, 1, 1);
    lengthen(rt, b"highest-multiplicity", 131073, 65535, 1, 65536);
    lengthen(rt, b"count-of-16-bits", 131073, 65535, 1, 0);
    lengthen(rt, b"root-counted", 131072, 1, 0, 1);
    lengthen(rt, b"free-counted", 131077, 1, 5, 1);
}

// Ranges of the record, and its total: at most T × 4,096, whatever N is.
fn faults_of_records(rt: &impl Print) {
    damage(rt, b"blocks-15", Fault::Blocks(15));
    damage(rt, b"blocks-17", Fault::Blocks(17));
    damage(rt, b"blocks-4097", Fault::Blocks(4097));
    damage(rt, b"roots-0", Fault::Roots(0));
    damage(rt, b"roots-9", Fault::Roots(9));
    damage(rt, b"bytes-0", Fault::Bytes(0));
    damage(rt, b"bytes-256", Fault::Bytes(256));
    damage(rt, b"bytes-768", Fault::Bytes(768));
    damage(rt, b"bytes-131072", Fault::Bytes(131072));
    damage(rt, b"contents-short", Fault::Bytes(1024));
    damage(rt, b"used-33", Fault::Used(33));
    damage(rt, b"time-end", Fault::Time(1099511627776));
    damage(rt, b"last-second", Fault::Time(1099511627775));
    damage(rt, b"pointer-forgotten", Fault::Used(2));
    damage(rt, b"total-above-blocks", Fault::Total(1601));
    damage(rt, b"total-highest", Fault::Total(409600));
    damage(rt, b"total-high", Fault::Total(409601));
    damage(rt, b"total-of-64-bits", Fault::Total(18446744073709551615));
}

// A fresh card, one table lent without its elements.
fn judge_lacking(rt: &impl Print, name: &[u8], lack: Lack) {
    let mut flags = [0u8; 16];
    flags[0] = 1;
    let card = SharedCard {
        info: tables::with_time(tables::fresh(16, 1, 512), 100, 0),
        flags: &flags,
        keys: &[0u64; 64],
        counts: &[0u32; 16],
        pointers: &[0u32; 32],
        multiplicities: &[0u16; 32],
        windows: &[0u64; 32],
        contents: &[0u8; 8192],
    };
    let lacking = match lack {
        Lack::Nothing => card,
        Lack::Flags => SharedCard { flags: &[], ..card },
        Lack::Keys => SharedCard { keys: &[], ..card },
        Lack::Counts => SharedCard {
            counts: &[],
            ..card
        },
        Lack::Pointers => SharedCard {
            pointers: &[],
            ..card
        },
        Lack::Multiplicities => SharedCard {
            multiplicities: &[],
            ..card
        },
        Lack::Windows => SharedCard {
            windows: &[],
            ..card
        },
        Lack::Contents => SharedCard {
            contents: &[],
            ..card
        },
    };
    show(rt, name, lacking);
}

// Table lengths.
fn faults_of_lengths(rt: &impl Print) {
    judge_lacking(rt, b"fresh", Lack::Nothing);
    judge_lacking(rt, b"no-flags", Lack::Flags);
    judge_lacking(rt, b"no-keys", Lack::Keys);
    judge_lacking(rt, b"no-counts", Lack::Counts);
    judge_lacking(rt, b"no-places", Lack::Pointers);
    judge_lacking(rt, b"no-multiplicities", Lack::Multiplicities);
    judge_lacking(rt, b"no-windows", Lack::Windows);
    judge_lacking(rt, b"no-contents", Lack::Contents);
}

fn main(rt: HostRuntime) {
    faults_of_blocks(&rt);
    faults_of_waiting_flags(&rt);
    faults_of_waiting_rows(&rt);
    faults_of_pointers(&rt);
    faults_of_multiplicities(&rt);
    faults_of_records(&rt);
    faults_of_lengths(&rt);
}
