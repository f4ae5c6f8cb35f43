// The windows of a block: set, opened by a host's READ or WRITE, and closed.
#![tactic(auto)]

ghost use Rattle.std.specs.Prelude.{◌≡◌, [], ◌+◌, ◌*◌, ◌≤◌, ◌<◌, length, set};
ghost use Rattle.card.specs.Card.{card, window_at};
ghost use Rattle.card.specs.Soundness.{time_limit};
ghost use Rattle.card.specs.Plan.{changes};
ghost use Rattle.card.specs.Calls.{window_after, opens_window};

use card::{Info, Mode, Port};

// Where the block's window for the mode stands in its table.
fn window_at(mode: Mode, block: usize) -> usize
    requires { block < 65536 }
    ensures { result ≡ window_at mode block }
{
    match mode {
        Mode::Reading => 2 * block,
        Mode::Writing => 2 * block + 1,
    }
}

// The window gets the end that an interval gives it, or keeps its own where that is later.
pub fn set_window(info: Info, windows: &mut [u64], mode: Mode, block: usize, interval: u32)
    requires { (info.time < time_limit) × ((block < 65536) × (2 * block + 2 ≤ length windows.old)) }
    ensures { windows.new ≡ set windows.old (window_at mode block) (window_after (card info [] [] [] [] [] windows.old []).public mode block interval) }
{
    let end = info.time + (interval as u64);
    let at = window_at(mode, block);
    if windows[at] < end {
        windows[at] = end;
    }
}

// A host's READ or WRITE opens a window by an interval that is not 0.
pub fn open_window(
    port: Port,
    info: Info,
    windows: &mut [u64],
    mode: Mode,
    block: usize,
    interval: u32,
)
    requires { (info.time < time_limit) × ((block < 65536) × (2 * block + 2 ≤ length windows.old)) }
    ensures { card info [] [] [] [] [] windows.new [] ≡ changes (card info [] [] [] [] [] windows.old []) (opens_window port (card info [] [] [] [] [] windows.old []).public mode block interval) }
{
    match port {
        Port::Host => {
            if interval == 0 {
                return;
            }
            set_window(info, windows, mode, block, interval);
        }
        Port::Service => {}
    }
}

// Both windows of the block become 0.
pub fn close_windows(windows: &mut [u64], block: usize)
    requires { 2 * block + 2 ≤ length windows.old }
    ensures { windows.new ≡ set (set windows.old (2 * block) 0) (2 * block + 1) 0 }
{
    let at = 2 * block;
    windows[at] = 0;
    windows[at + 1] = 0;
}
