// The tests of a block that calls share: is it there, is it a root at the host port, and the one access test, whether a credential opens it for
// reading or writing.
#![tactic(auto)]

ghost use Rattle.std.specs.Prelude.{◌≡◌, ◌&&◌, [], ◌+◌, ◌*◌, ◌<◌, ◌≤◌, eqb, length, get_or};
ghost use Rattle.card.specs.declared.Credential.TheVariants.{Reference};
ghost use Rattle.card.specs.Card.{Card, card, window_open};
ghost use Rattle.card.specs.Access.{key_is, key_opens, opens_pointed, opens, admits};
ghost use Rattle.card.specs.Calls.{missing, root_at_host};
ghost use Rattle.card.specs.Lent.{shared_card};
ghost use Rattle.access.specs.Accessible.{Referable, Accessible};

use card::{Credential, Info, Mode, Port, SharedCard};

// ---- refusals 3 and 6

// "3": the block is not below N or not allocated, told by the record and the flags.
pub fn missing(info: Info, flags: &[u8], block: usize) -> bool
    requires { length flags.now ≡ info.blocks }
    ensures { result ≡ missing (card info flags.now [] [] [] [] [] []).public block }
{
    if info.blocks <= block {
        return true;
    }
    !flags::allocated(flags[block])
}

// "6": the block is a root and the call is a host's.
pub fn root_at_host(port: Port, info: Info, block: usize) -> bool
    ensures { result ≡ root_at_host port (card info [] [] [] [] [] [] []).public block }
{
    match port {
        Port::Host => block < info.roots,
        Port::Service => false,
    }
}

// ---- keys

// The two words from `at` on are those given.
fn same_words(keys: &[u64], at: usize, high: u64, low: u64) -> bool
    requires { at + 1 < length keys.now }
    ensures { result ≡ eqb (get_or keys.now at 0) high && eqb (get_or keys.now (at + 1) 0) low }
{
    let first = keys[at];
    let second = keys[at + 1];
    (first == high) & (second == low)
}

// The words are those of the block's key for the mode.
pub fn key_is(keys: &[u64], mode: Mode, block: usize, high: u64, low: u64) -> bool
    requires { 4 * block + 4 ≤ length keys.now }
    ensures { result ≡ key_is keys.now mode block high low }
{
    match mode {
        Mode::Reading => same_words(keys, 4 * block, high, low),
        Mode::Writing => same_words(keys, 4 * block + 2, high, low),
    }
}

// The key opens the block, which has a key for the mode: so it is on each card with these keys and this flags byte.
fn key_opens(flag: u8, keys: &[u64], mode: Mode, block: usize, high: u64, low: u64) -> bool
    requires { 4 * block + 4 ≤ length keys.now }
    ensures { (c : Card) → c.keys ≡ keys.now → get_or c.public.flags block 0 ≡ flag → result ≡ key_opens c mode block high low }
{
    match mode {
        Mode::Reading => {
            let read = key_is(keys, Mode::Reading, block, high, low);
            let write = key_is(keys, Mode::Writing, block, high, low);
            read | (flags::has_key(flag, Mode::Writing) & write)
        }
        Mode::Writing => key_is(keys, Mode::Writing, block, high, low),
    }
}

// ---- references

// The block's window for the mode is open: the time is below its end.
pub fn window_open(info: Info, windows: &[u64], mode: Mode, block: usize) -> bool
    requires { 2 * block + 2 ≤ length windows.now }
    ensures { result ≡ window_open (card info [] [] [] [] [] windows.now []).public mode block }
{
    let at = 2 * block;
    let read = windows[at];
    let write = windows[at + 1];
    match mode {
        Mode::Reading => info.time < read,
        Mode::Writing => info.time < write,
    }
}

// The reference opens a block that has no key for the mode and is no root.
fn reference_opens(card: SharedCard, mode: Mode, block: usize, reference: u16) -> bool
    requires { Referable (shared_card card).public block }
    ensures { result ≡ opens_pointed (shared_card card.entry).public mode block (Reference reference) }
{
    let source = reference as usize;
    if card.info.blocks <= source {
        return false;
    }
    if !flags::allocated(card.flags[source]) {
        return false;
    }
    let pointer = (reference as u32) * 65536 + (block as u32);
    tables::holds(card.pointers, card.info.used, pointer)
        & window_open(card.info, card.windows, mode, source)
}

// ---- the test

// The credential opens the block for the mode.
pub fn opens(card: SharedCard, mode: Mode, block: usize, credential: Credential) -> bool
    requires { Accessible (shared_card card) block }
    ensures { result ≡ opens (shared_card card.entry) mode block credential }
{
    let flag = card.flags[block];
    let keyed = flags::has_key(flag, mode);
    let root = block < card.info.roots;
    match credential {
        Credential::Nothing => !keyed & root,
        Credential::Reference(reference) => {
            if keyed | root {
                return false;
            }
            reference_opens(card, mode, block, reference)
        }
        Credential::Key(high, low) => {
            if keyed {
                return key_opens(flag, card.keys, mode, block, high, low);
            }
            false
        }
    }
}

// The call may go on: at the service port always, at the host's where the credential opens the block.
pub fn admits(
    port: Port,
    card: SharedCard,
    mode: Mode,
    block: usize,
    credential: Credential,
) -> bool
    requires { Accessible (shared_card card) block }
    ensures { result ≡ admits port (shared_card card.entry) mode block credential }
{
    match port {
        Port::Host => opens(card, mode, block, credential),
        Port::Service => true,
    }
}
