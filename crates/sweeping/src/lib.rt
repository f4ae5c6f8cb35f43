// SWEEP on an audited card: the lowest waiting blocks are overwritten and become free, on one walk of the flags.
#![tactic(auto)]

ghost use Rattle.std.specs.Prelude.{◌*◌, ◌≡◌, [], length};
ghost use Rattle.card.specs.Lent.{Performs, SameTables, lent_card};
ghost use Rattle.card.specs.SoundCard.{SoundCard};
ghost use Rattle.card.specs.Session.{request, perform_sound};
ghost use Rattle.sweeping.specs.Sweeping.{CanSweep, BlockSwept, LowestSwept};

use card::{Answer, Call, LentCard, Port, SweepOperands};

// The block becomes free, and its own part of the contents zeros.
fn sweep_block(bytes: usize, flags: &mut [u8], contents: &mut [u8], block: usize)
    requires { CanSweep bytes flags.old contents.old block }
    ensures { BlockSwept bytes block flags.old contents.old flags.new contents.new }
{
    let at = block * bytes;
    let end = at + bytes;
    tables::clear(&mut contents[at..end]);
    flags[block] = 0;
}

// The lowest waiting blocks are swept, at most so many. How many were.
fn sweep_lowest(bytes: usize, flags: &mut [u8], contents: &mut [u8], most: usize) -> usize
    requires { length contents.old ≡ length flags.old * bytes }
    ensures { LowestSwept bytes most flags.old contents.old flags.new contents.new result }
{
    let mut swept = 0;
    for block in 0..flags.len() {
        if swept == most {
            return swept;
        }
        if flags::waiting(flags[block]) {
            sweep_block(bytes, flags, contents, block);
            swept += 1;
        }
    }
    swept
}

pub fn sweep_sound(card: &mut LentCard, o: SweepOperands) -> Answer
    requires { SoundCard (lent_card card.old) }
    ensures same { SameTables card.old card.new }
    ensures performs { (port : Port) → Performs (λ c. perform_sound port c (request (Call.Sweep o) [] [] [])) card.old card.new result [] [] }
{
    let swept = sweep_lowest(card.info.bytes, card.flags, card.contents, o.most as usize);
    Ok(Some(swept as u64))
}
