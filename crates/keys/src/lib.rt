// KEY_READ, KEY_WRITE, RENEW and FORCE on an audited card: one key set, a window renewed by a key, windows closed.
#![tactic(auto)]

ghost use Rattle.std.specs.Prelude.{◌≡◌, [], ◌+◌, ◌*◌, ◌≤◌, length, set};
ghost use Rattle.card.specs.Lent.{Performs, SameTables, lent_card};
ghost use Rattle.card.specs.SoundCard.{SoundCard};
ghost use Rattle.card.specs.Plan.{high_word, low_word, other_mode, key_bit, keyed_flags, replace_key};
ghost use Rattle.card.specs.Calls.{mode_of};
ghost use Rattle.card.specs.Session.{key_call, request, perform_sound};

use card::{
    Answer, Call, Credential, ForceOperands, KeyOperands, LONGEST_INTERVAL, LentCard, Mode, Port,
    Refusal, RenewOperands,
};

// ---- KEY_READ and KEY_WRITE

// The operation that is not this one.
fn other_mode(mode: Mode) -> Mode
    ensures { result ≡ other_mode mode }
{
    match mode {
        Mode::Reading => Mode::Writing,
        Mode::Writing => Mode::Reading,
    }
}

// The flag of a key for the mode: 0 where there is none.
fn key_bit(mode: Mode, there: bool) -> u8
    ensures { result ≡ key_bit mode there }
{
    if !there {
        return 0;
    }
    match mode {
        Mode::Reading => 2,
        Mode::Writing => 4,
    }
}

// An allocated block's flags byte once its key for the mode is set: the other key's flag is as it was.
fn keyed_flags(flag: u8, mode: Mode, key: Option<(u64, u64)>) -> u8
    ensures { result ≡ keyed_flags flag mode key }
{
    let other = other_mode(mode);
    let own_bit = key_bit(mode, key.is_some());
    let other_bit = key_bit(other, flags::has_key(flag, other));
    1 + own_bit + other_bit
}

// The two words from `at` on become the key's.
fn set_words(keys: &mut [u64], at: usize, key: Option<(u64, u64)>)
    requires { at + 2 ≤ length keys.old }
    ensures { keys.new ≡ set (set keys.old at (high_word key)) (at + 1) (low_word key) }
{
    let (high, low) = key.unwrap_or((0, 0));
    keys[at] = high;
    keys[at + 1] = low;
}

// The write key stands behind the read key.
fn replace_key(keys: &mut [u64], mode: Mode, block: usize, key: Option<(u64, u64)>)
    requires { 4 * block + 4 ≤ length keys.old }
    ensures { keys.new ≡ replace_key keys.old mode block key }
{
    let read = 4 * block;
    let write = read + 2;
    match mode {
        Mode::Reading => set_words(keys, read, key),
        Mode::Writing => set_words(keys, write, key),
    }
}

// The mode says whose key is set. Either call asks for write access, and closes both windows.
pub fn key_sound(card: &mut LentCard, port: Port, mode: Mode, o: KeyOperands) -> Answer
    requires { SoundCard (lent_card card.old) }
    ensures same { SameTables card.old card.new }
    ensures performs { Performs (λ c. perform_sound port c (request (key_call mode o) [] [] [])) card.old card.new result [] [] }
{
    let block = o.block as usize;
    let view = card.shared();
    if access::missing(view.info, view.flags, block) {
        return Err(Refusal::NotAllocated);
    }
    if access::root_at_host(port, card.info, block) {
        return Err(Refusal::IsRoot);
    }
    if !access::admits(port, view, Mode::Writing, block, o.credential) {
        return Err(Refusal::NotOpened);
    }
    card.flags[block] = keyed_flags(card.flags[block], mode, o.key);
    replace_key(card.keys, mode, block, o.key);
    windows::close_windows(card.windows, block);
    Ok(None)
}

// ---- RENEW

// The operation that a mode number names. It is a number in the operands, since a call may pass another one, which is refused 4.
fn mode_of(number: u8) -> Mode
    ensures { result ≡ mode_of number }
{
    if number == 0 {
        return Mode::Reading;
    }
    Mode::Writing
}

pub fn renew_sound(card: &mut LentCard, o: RenewOperands) -> Answer
    requires { SoundCard (lent_card card.old) }
    ensures same { SameTables card.old card.new }
    ensures performs { (port : Port) → Performs (λ c. perform_sound port c (request (Call.Renew o) [] [] [])) card.old card.new result [] [] }
{
    let block = o.block as usize;
    if (1 < o.mode) | (o.interval == 0) | (LONGEST_INTERVAL < o.interval) {
        return Err(Refusal::BadOperand);
    }
    let view = card.shared();
    if access::missing(view.info, view.flags, block) {
        return Err(Refusal::NotAllocated);
    }
    let mode = mode_of(o.mode);
    // A key opens no block without a key for the mode.
    if !access::opens(view, mode, block, Credential::Key(o.high, o.low)) {
        return Err(Refusal::NotOpened);
    }
    windows::set_window(card.info, card.windows, mode, block, o.interval);
    Ok(None)
}

// ---- FORCE

pub fn force_sound(card: &mut LentCard, o: ForceOperands) -> Answer
    requires { SoundCard (lent_card card.old) }
    ensures same { SameTables card.old card.new }
    ensures performs { (port : Port) → Performs (λ c. perform_sound port c (request (Call.Force o) [] [] [])) card.old card.new result [] [] }
{
    let block = o.block as usize;
    let view = card.shared();
    if access::missing(view.info, view.flags, block) {
        return Err(Refusal::NotAllocated);
    }
    windows::close_windows(card.windows, block);
    Ok(None)
}
