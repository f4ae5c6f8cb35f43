// FORMAT: a fresh card on the lent tables.
#![tactic(auto)]

ghost use Rattle.std.specs.Prelude.{◌≡◌, [], ◌++◌, ◌-◌, ◌≤◌, length, replicate};
ghost use Rattle.card.specs.Lent.{Performs, SameTables};
ghost use Rattle.card.specs.Contents.{zeros};
ghost use Rattle.card.specs.Calls.{format};

use card::{Answer, LentCard, Refusal, SharedCard};

// The roots are allocated, and no other block is.
fn mark_roots(flags: &mut [u8], roots: usize)
    requires { roots ≤ length flags.old }
    ensures { flags.new ≡ replicate roots 1 ++ zeros (length flags.old - roots) }
{
    flags.fill(0);
    flags[..roots].fill(1);
}

// "FORMAT(N, R, B)": refused 1, or a fresh card on the lent tables.
pub fn format(card: &mut LentCard, blocks: usize, roots: usize, bytes: usize) -> Answer
    ensures same { SameTables card.old card.new }
    ensures performs { Performs (format blocks roots bytes) card.old card.new result [] [] }
{
    let fresh = tables::fresh(blocks, roots, bytes);
    if !shape::shaped(SharedCard {
        info: fresh,
        ..card.shared()
    }) {
        return Err(Refusal::Misshapen);
    }
    card.info = fresh;
    mark_roots(card.flags, roots);
    card.keys.fill(0);
    card.counts.fill(0);
    card.pointers.fill(0);
    card.multiplicities.fill(0);
    card.windows.fill(0);
    let size = roots * bytes;
    card.contents[0..size].fill(0);
    Ok(None)
}
