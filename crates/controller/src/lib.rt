// Performs a decoded call at a port: audits the card, refuses 1 or 2, or hands the call on.
#![tactic(auto)]

ghost use Rattle.std.specs.Prelude.{◌≡◌};
ghost use Rattle.card.specs.Lent.{Performs, SameTables, lent_card};
ghost use Rattle.card.specs.Soundness.{verdict};
ghost use Rattle.card.specs.Session.{request, perform};

use card::{Answer, Call, LentCard, Port, Refusal, Verdict};

// A call on a card of which the verdict is known.
pub fn perform_judged(
    found: Verdict,
    card: &mut LentCard,
    port: Port,
    call: Call,
    input: &[u8],
    out: &mut [u8],
    places: &mut [u16],
) -> Answer
    requires { found ≡ verdict (lent_card card.old) }
    ensures same { SameTables card.old card.new }
    ensures performs { Performs (λ c. perform port c (request call input.now out.old places.old)) card.old card.new result out.new places.new }
{
    match found {
        Verdict::Misshapen => Err(Refusal::Misshapen),
        Verdict::Unsound => Err(Refusal::Unsound),
        Verdict::Sound => dispatch::perform_sound(card, port, call, input, out, places),
    }
}

// A call on any record and tables: audited first.
pub fn perform(
    card: &mut LentCard,
    port: Port,
    call: Call,
    input: &[u8],
    out: &mut [u8],
    places: &mut [u16],
) -> Answer
    ensures same { SameTables card.old card.new }
    ensures performs { Performs (λ c. perform port c (request call input.now out.old places.old)) card.old card.new result out.new places.new }
{
    let found = audit::audit(card.shared());
    perform_judged(found, card, port, call, input, out, places)
}
