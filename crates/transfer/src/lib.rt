// READ and WRITE on an audited card.
#![tactic(auto)]

ghost use Rattle.std.specs.Prelude.{◌≡◌, []};
ghost use Rattle.card.specs.Lent.{Performs, SameTables, lent_card};
ghost use Rattle.card.specs.SoundCard.{SoundCard};
ghost use Rattle.card.specs.Session.{request, perform_sound};

use card::{Answer, Call, LONGEST_INTERVAL, LentCard, Mode, Port, Refusal, TransferOperands};

// "Else out is that block's part of the contents": the part is handed on to the copying function.
pub fn read_sound(card: &mut LentCard, port: Port, o: TransferOperands, out: &mut [u8]) -> Answer
    requires { SoundCard (lent_card card.old) }
    ensures same { SameTables card.old card.new }
    ensures performs { Performs (λ c. perform_sound port c (request (Call.Read o) [] out.old [])) card.old card.new result out.new [] }
{
    let block = o.block as usize;
    let bytes = card.info.bytes;
    if (out.len() != bytes) | (LONGEST_INTERVAL < o.interval) {
        return Err(Refusal::BadOperand);
    }
    let view = card.shared();
    if access::missing(view.info, view.flags, block) {
        return Err(Refusal::NotAllocated);
    }
    if !access::admits(port, view, Mode::Reading, block, o.credential) {
        return Err(Refusal::NotOpened);
    }
    let at = block * bytes;
    let end = at + bytes;
    tables::copy(&view.contents[at..end], out);
    windows::open_window(
        port,
        card.info,
        card.windows,
        Mode::Reading,
        block,
        o.interval,
    );
    Ok(None)
}

pub fn write_sound(card: &mut LentCard, port: Port, o: TransferOperands, input: &[u8]) -> Answer
    requires { SoundCard (lent_card card.old) }
    ensures same { SameTables card.old card.new }
    ensures performs { Performs (λ c. perform_sound port c (request (Call.Write o) input.now [] [])) card.old card.new result [] [] }
{
    let block = o.block as usize;
    let bytes = card.info.bytes;
    if (input.len() != bytes) | (LONGEST_INTERVAL < o.interval) {
        return Err(Refusal::BadOperand);
    }
    let view = card.shared();
    if access::missing(view.info, view.flags, block) {
        return Err(Refusal::NotAllocated);
    }
    if !access::admits(port, view, Mode::Writing, block, o.credential) {
        return Err(Refusal::NotOpened);
    }
    let at = block * bytes;
    let end = at + bytes;
    tables::copy(input, &mut card.contents[at..end]);
    windows::open_window(
        port,
        card.info,
        card.windows,
        Mode::Writing,
        block,
        o.interval,
    );
    Ok(None)
}
