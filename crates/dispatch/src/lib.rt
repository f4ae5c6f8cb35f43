// A decoded call handed to its function, on an audited card: the one place where the calls are told apart.
#![tactic(auto)]

ghost use Rattle.card.specs.Lent.{Performs, SameTables, lent_card};
ghost use Rattle.card.specs.SoundCard.{SoundCard};
ghost use Rattle.card.specs.Session.{request, perform_sound};

use card::{Answer, Call, LentCard, Mode, Port};

pub fn perform_sound(
    card: &mut LentCard,
    port: Port,
    call: Call,
    input: &[u8],
    out: &mut [u8],
    places: &mut [u16],
) -> Answer
    requires { SoundCard (lent_card card.old) }
    ensures same { SameTables card.old card.new }
    ensures performs { Performs (λ c. perform_sound port c (request call input.now out.old places.old)) card.old card.new result out.new places.new }
{
    match call {
        Call::Read(o) => transfer::read_sound(card, port, o, out),
        Call::Write(o) => transfer::write_sound(card, port, o, input),
        Call::Alloc(o) => allocation::alloc_sound(card, port, o, places),
        Call::AllocContig(o) => allocation::alloc_contig_sound(card, port, o, places),
        Call::Create(o) => linking::create_sound(card, port, o),
        Call::Delete(o) => linking::delete_sound(card, port, o),
        Call::DeleteTree(o) => removal::delete_tree_sound(card, port, o),
        Call::KeyRead(o) => keys::key_sound(card, port, Mode::Reading, o),
        Call::KeyWrite(o) => keys::key_sound(card, port, Mode::Writing, o),
        Call::Renew(o) => keys::renew_sound(card, o),
        Call::Force(o) => keys::force_sound(card, o),
        Call::Free => status::free_sound(card.shared()),
        Call::Tick(o) => status::tick_sound(card, o),
        Call::Rent(o) => status::rent_sound(card.shared(), o),
        Call::Sweep(o) => sweeping::sweep_sound(card, o),
        Call::Audit => Ok(None),
    }
}
