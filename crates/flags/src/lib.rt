// A block's flags byte: whether it says that the block is allocated, waits or is free, and that the block has a key.
#![tactic(auto)]

ghost use Rattle.std.specs.Prelude.{◌≡◌};
ghost use Rattle.card.specs.Card.{allocated_flag, waiting_flag, free_flag, key_flag};

use card::{Mode, WAITING_FLAGS};

// The block is allocated.
pub fn allocated(flag: u8) -> bool
    ensures { result ≡ allocated_flag flag }
{
    flag % 2 == 1
}

// The block was freed and waits to be overwritten.
pub fn waiting(flag: u8) -> bool
    ensures { result ≡ waiting_flag flag }
{
    flag == WAITING_FLAGS
}

// The block is free.
pub fn free(flag: u8) -> bool
    ensures { result ≡ free_flag flag }
{
    flag == 0
}

// The block has a key for the mode.
pub fn has_key(flag: u8, mode: Mode) -> bool
    ensures { result ≡ key_flag mode flag }
{
    match mode {
        Mode::Reading => flag / 2 % 2 == 1,
        Mode::Writing => flag / 4 % 2 == 1,
    }
}
