// A call performed on what C lends, and what C gets of it: a number, and a result where there is one.
#![tactic(auto)]

ghost use Rattle.std.specs.Prelude.{◌≡◌, [], length};
ghost use Rattle.card.specs.Lent.{changed};
ghost use Rattle.card.specs.Calls.{answer_number};
ghost use Rattle.parameters.specs.Numbers.{record_length, numbers_of};
ghost use Rattle.adapter.specs.Effects.{value_after, effect, EffectsGiving, EffectsLent};

use card::{Answer, Call, Info, LentCard, Port};
use fields::BadRecord;

// The number of an answer; a result is put where the caller asks for it.
pub fn report(answer: Answer, value: &mut u64) -> u32
    ensures number { result ≡ answer_number answer }
    ensures result { value.new ≡ value_after answer value.old }
{
    match answer {
        Err(refusal) => lines::refusal_number(refusal) as u32,
        Ok(None) => 0,
        Ok(Some(v)) => {
            *value = v;
            0
        }
    }
}

// What a call leaves of the record is stored, and its answer reported.
pub fn settle(info: &mut [u64], left: Info, answer: Answer, value: &mut u64) -> u32
    requires { length info.old ≡ record_length }
    ensures stored { info.new ≡ numbers_of left }
    ensures number { result ≡ answer_number answer }
    ensures result { value.new ≡ value_after answer value.old }
{
    parameters::store(info, left);
    report(answer, value)
}

// A call on the lent record and tables: refused 13 where there is none, and 1 where the record has not its numbers.
pub fn perform(
    info: &mut [u64],
    flags: &mut [u8],
    keys: &mut [u64],
    counts: &mut [u32],
    pointers: &mut [u32],
    multiplicities: &mut [u16],
    windows: &mut [u64],
    contents: &mut [u8],
    decoding: Result<(Port, Call), BadRecord>,
    input: &[u8],
    out: &mut [u8],
    places: &mut [u16],
    value: &mut u64,
) -> u32
    ensures { EffectsLent (effect decoding input.now) (changed info.old info.new) (changed flags.old flags.new) (changed keys.old keys.new) (changed counts.old counts.new) (changed pointers.old pointers.new) (changed multiplicities.old multiplicities.new) (changed windows.old windows.new) (changed contents.old contents.new) (changed out.old out.new) (changed places.old places.new) (changed value.old value.new) result }
{
    let Ok((port, call)) = decoding else {
        return 13;
    };
    if info.len() != parameters::RECORD_LENGTH {
        return 1;
    }
    let mut card = LentCard {
        info: parameters::load(info),
        flags,
        keys,
        counts,
        pointers,
        multiplicities,
        windows,
        contents,
    };
    let answer = controller::perform(&mut card, port, call, input, out, places);
    settle(info, card.info, answer, value)
}

// The same of a call that fills no buffer.
pub fn perform_without_buffers(
    info: &mut [u64],
    flags: &mut [u8],
    keys: &mut [u64],
    counts: &mut [u32],
    pointers: &mut [u32],
    multiplicities: &mut [u16],
    windows: &mut [u64],
    contents: &mut [u8],
    decoding: Result<(Port, Call), BadRecord>,
    input: &[u8],
    value: &mut u64,
) -> u32
    ensures { EffectsGiving (effect decoding input.now [] []) (changed info.old info.new) (changed flags.old flags.new) (changed keys.old keys.new) (changed counts.old counts.new) (changed pointers.old pointers.new) (changed multiplicities.old multiplicities.new) (changed windows.old windows.new) (changed contents.old contents.new) (changed value.old value.new) result }
{
    perform(
        info,
        flags,
        keys,
        counts,
        pointers,
        multiplicities,
        windows,
        contents,
        decoding,
        input,
        &mut [],
        &mut [],
        value,
    )
}
