// The shape of a record and tables: ranges and lengths.
#![tactic(auto)]

ghost use Rattle.std.specs.Prelude.{◌≡◌};
ghost use Rattle.card.specs.Lent.{shared_card};
ghost use Rattle.card.specs.Soundness.{ranges, shape};
ghost use Rattle.card.specs.SoundCard.{InRanges};

use card::{BLOCK_LIMIT, PLACE_LIMIT, SharedCard, TIME_LIMIT};

fn in_ranges(blocks: usize, roots: usize, bytes: usize) -> bool
    ensures { result ≡ ranges blocks roots bytes }
{
    // `bytes` is a divisor below.
    if bytes < 512 {
        return false;
    }
    (16 <= blocks)
        & (blocks <= BLOCK_LIMIT)
        & (1 <= roots)
        & (roots <= 8)
        & (512 <= bytes)
        & (bytes <= 65536)
        & (65536 % bytes == 0)
}

fn has_lengths(card: SharedCard) -> bool
    requires { InRanges card.info.blocks card.info.roots card.info.bytes }
    ensures { result ≡ shape (shared_card card.entry) }
{
    let blocks = card.info.blocks;
    let places = card.pointers.len();
    (card.info.time < TIME_LIMIT)
        & (card.flags.len() == blocks)
        & (card.keys.len() == 4 * blocks)
        & (card.counts.len() == blocks)
        & (1 <= places)
        & (places <= PLACE_LIMIT)
        & (card.multiplicities.len() == places)
        & (card.windows.len() == 2 * blocks)
        & (card.contents.len() == blocks * card.info.bytes)
        & (card.info.used <= places)
}

// The shape alone, as FORMAT asks it.
pub fn shaped(card: SharedCard) -> bool
    ensures { result ≡ shape (shared_card card.entry) }
{
    if in_ranges(card.info.blocks, card.info.roots, card.info.bytes) {
        has_lengths(card)
    } else {
        false
    }
}
