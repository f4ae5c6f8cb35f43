// ALLOC_CONTIG's run: the free blocks that adjoin and start nearest the wanted one, found on one walk of the flags.
#![tactic(auto)]

ghost use Rattle.std.specs.Prelude.{◌≡◌, ◌≤◌, ◌<◌, length};
ghost use Rattle.card.specs.Calls.{distance};
ghost use Rattle.runs.specs.Runs.{since_after, nearer_of, nearest_of, starts_in};

fn distance(a: usize, b: usize) -> usize
    ensures { result ≡ distance a b }
{
    a.abs_diff(b)
}

// The first of the free blocks that end with the block, or the block behind it if it is not free itself.
fn since_after(since: usize, block: usize, flag: u8) -> usize
    requires { block < 4096 }
    ensures { result ≡ since_after since block flag }
{
    if flags::free(flag) { since } else { block + 1 }
}

// The nearest of the runs so far and of one more, which starts above them: so on a tie it is not taken.
fn nearer(want: usize, best: Option<usize>, start: usize) -> Option<usize>
    ensures { result ≡ nearer_of want best start }
{
    match best {
        None => Some(start),
        Some(first) => {
            if distance(want, start) < distance(want, first) {
                Some(start)
            } else {
                Some(first)
            }
        }
    }
}

// The first block of the run of `count` blocks that starts nearest the wanted one, the lower on a tie, if there is a run. Each is met at its last block.
pub fn nearest_run(flags: &[u8], want: usize, count: usize) -> Option<usize>
    requires flags_len_bound { length flags.now ≤ 4096 }
    requires le_count { 1 ≤ count }
    ensures { result ≡ nearest_of want (starts_in flags.now count) }
{
    let mut best = None;
    let mut since = 0;
    for (block, flag) in flags.iter().enumerate() {
        since = since_after(since, block, *flag);
        let end = block + 1;
        if count <= end - since {
            best = nearer(want, best, end - count);
        }
    }
    best
}
