// FREE, TICK and RENT on an audited card.
#![tactic(auto)]

ghost use Rattle.std.specs.Prelude.{◌*◌, ◌^◌, ◌≤◌, ◌<◌, ◌≡◌, []};
ghost use Rattle.card.specs.Lent.{Performs, SameTables, lent_card, shared_card};
ghost use Rattle.card.specs.Promises.{Is};
ghost use Rattle.card.specs.Rent.{highest_price, half_rounded, rounded, cents};
ghost use Rattle.card.specs.Soundness.{time_limit, most_blocks};
ghost use Rattle.card.specs.SoundCard.{SoundCard};
ghost use Rattle.card.specs.Session.{request, perform_sound};

use card::{
    Answer, Call, HIGHEST_PRICE, LentCard, Port, Refusal, RentOperands, SharedCard, TIME_LIMIT,
    TickOperands,
};

// So many blocks times seconds cost a cent at a price of 1: 86,400 seconds in a day, 1,000 thousandths in a cent.
const PER_CENT: u64 = 86400000;

pub fn free_sound(card: SharedCard) -> Answer
    requires { SoundCard (shared_card card) }
    ensures { (port : Port) → Is (perform_sound port (shared_card card.entry) (request (Call.Free) [] [] [])) result (shared_card card.entry) [] [] }
{
    Ok(Some(tables::count_free(card.flags) as u64))
}

pub fn tick_sound(card: &mut LentCard, o: TickOperands) -> Answer
    requires { SoundCard (lent_card card.old) }
    ensures same { SameTables card.old card.new }
    ensures performs { (port : Port) → Performs (λ c. perform_sound port c (request (Call.Tick o) [] [] [])) card.old card.new result [] [] }
{
    // Compared before it is added: the sum could wrap.
    if TIME_LIMIT - card.info.time <= o.seconds {
        return Err(Refusal::TimeEnds);
    }
    let time = card.info.time + o.seconds;
    // Nothing wraps: the new total is at most the new time times 4,096, as the old one was.
    let rented = tables::count_rented(card.info.roots, card.shared().flags) as u64;
    let total = card.info.total + o.seconds * rented;
    card.info = tables::with_time(card.info, time, total);
    Ok(Some(time))
}

// ---- RENT

// An exact half goes upward.
fn half_rounded(whole: u64) -> u64
    requires { whole < 2 ^ 63 }
    ensures { result ≡ half_rounded whole }
{
    whole + 1
}

// How many wholes of `size` parts are nearest to the parts.
fn rounded(parts: u64, size: u64) -> u64
    requires fact_1 { parts < 2 ^ 63 }
    requires fact_2 { 0 < size }
    requires fact_3 { size < 2 ^ 63 }
    ensures { result ≡ rounded parts size }
{
    let whole = parts / size;
    let twice = 2 * (parts % size);
    if size < twice {
        return whole + 1;
    }
    if twice == size {
        return half_rounded(whole);
    }
    whole
}

fn cents(total: u64, price: u32) -> u64
    requires fact_1 { total ≤ time_limit * most_blocks }
    requires fact_2 { price ≤ highest_price }
    ensures { result ≡ cents total price }
{
    rounded(total * price as u64, PER_CENT)
}

pub fn rent_sound(card: SharedCard, o: RentOperands) -> Answer
    requires { SoundCard (shared_card card) }
    ensures { (port : Port) → Is (perform_sound port (shared_card card.entry) (request (Call.Rent o) [] [] [])) result (shared_card card.entry) [] [] }
{
    if HIGHEST_PRICE < o.price {
        return Err(Refusal::PriceTooHigh);
    }
    Ok(Some(cents(card.info.total, o.price)))
}
