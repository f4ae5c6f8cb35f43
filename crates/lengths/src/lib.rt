// The call and the port of a byte of kind, and the lengths of its operands and its body, worked out from the kind.
// What is right is defined in crates/kinds/specs/.
#![tactic(auto)]

ghost use Rattle.std.specs.Prelude.{◌≡◌, ◌≤◌};
ghost use Rattle.card.specs.declared.Port.TheVariants.{Host, Service};
ghost use Rattle.kinds.specs.Kinds.{kind_of, body_length};
ghost use Rattle.kinds.specs.Arithmetic.{number_of, has_credential, part_of, behind_credential, without_credential, operands_at, lengths_at};

use card::Port;
use kinds::{Lengths, Name};

// ---- the sizes of the fields of a body, in bytes

// A block's number, or a hint.
const BLOCK: usize = 2;

const INTERVAL: usize = 4;

const COUNT: usize = 1;

const MODE: usize = 1;

const CREDENTIAL: usize = 17;

const NEW_KEY: usize = 17;

// RENEW's key, with no byte before it.
const BARE_KEY: usize = 16;

// TICK's number.
const SECONDS: usize = 8;

// What WRITE writes.
const DATA: usize = 512;

// ---- the call of a kind

// A kind that arrives at the host port: a host's, or none. No `TryFrom`: what a byte says depends on the port where it arrives.
fn host_kind_of(kind: u8) -> Option<(Port, Name)>
    ensures { result ≡ kind_of Host kind }
{
    match kind {
        1 => Some((Port::Host, Name::Read)),
        2 => Some((Port::Host, Name::Write)),
        3 => Some((Port::Host, Name::Alloc)),
        4 => Some((Port::Host, Name::Create)),
        5 => Some((Port::Host, Name::Delete)),
        6 => Some((Port::Host, Name::KeyRead)),
        7 => Some((Port::Host, Name::Renew)),
        8 => Some((Port::Host, Name::Force)),
        9 => Some((Port::Host, Name::Free)),
        10 => Some((Port::Host, Name::Tick)),
        11 => Some((Port::Host, Name::Audit)),
        12 => Some((Port::Host, Name::AllocContig)),
        13 => Some((Port::Host, Name::KeyWrite)),
        14 => Some((Port::Host, Name::DeleteTree)),
        _ => None,
    }
}

// From 128 on a kind is one of the service port, and exists there alone.
fn service_kind_of(kind: u8) -> Option<(Port, Name)>
    requires { 128 ≤ kind }
    ensures { result ≡ kind_of Service kind }
{
    match kind {
        129 => Some((Port::Service, Name::Read)),
        130 => Some((Port::Service, Name::Write)),
        131 => Some((Port::Service, Name::Alloc)),
        132 => Some((Port::Service, Name::Create)),
        133 => Some((Port::Service, Name::Delete)),
        134 => Some((Port::Service, Name::KeyRead)),
        140 => Some((Port::Service, Name::AllocContig)),
        141 => Some((Port::Service, Name::KeyWrite)),
        142 => Some((Port::Service, Name::DeleteTree)),
        _ => None,
    }
}

// The port and the call of a byte of kind that arrives at a port.
pub fn kind_of(wire: Port, kind: u8) -> Option<(Port, Name)>
    ensures { result ≡ kind_of wire kind }
{
    match wire {
        Port::Host => host_kind_of(kind),
        Port::Service => {
            if kind < 128 {
                host_kind_of(kind)
            } else {
                service_kind_of(kind)
            }
        }
    }
}

// ---- the lengths of a kind

// Each is a sum of sizes of fields, by comparisons of the call's number and not by a match: of a match that yields numbers the compiler may
// make an array.

// The number of a kind's call: its kind at the host port.
fn number_of(kind: u8) -> u8
    ensures { result ≡ number_of kind }
{
    if kind < 128 { kind } else { kind - 128 }
}

// READ to KEY_READ, ALLOC_CONTIG, KEY_WRITE and DELETE_TREE have one, for the block that they name first.
fn has_credential(call: u8) -> bool
    ensures { result ≡ has_credential call }
{
    (call <= 6) | (12 <= call)
}

// What some fields add to a length, where a call has them.
fn part_of(has: bool, size: usize) -> usize
    ensures { result ≡ part_of has size }
{
    if has { size } else { 0 }
}

// What follows the credential: of READ and WRITE, ALLOC and ALLOC_CONTIG, CREATE, DELETE and DELETE_TREE, KEY_READ and KEY_WRITE.
fn behind_credential(call: u8) -> usize
    ensures { result ≡ behind_credential call }
{
    part_of(call <= 2, INTERVAL)
        + part_of((call == 3) | (call == 12), BLOCK + COUNT)
        + part_of(call == 4, BLOCK + CREDENTIAL)
        + part_of((call == 5) | (call == 14), BLOCK)
        + part_of((call == 6) | (call == 13), NEW_KEY)
}

// The operands of RENEW, of FORCE and of TICK.
fn without_credential(call: u8) -> usize
    ensures { result ≡ without_credential call }
{
    part_of(call == 7, MODE + BLOCK + BARE_KEY + INTERVAL)
        + part_of(call == 8, BLOCK)
        + part_of(call == 10, SECONDS)
}

fn operands_length(call: u8) -> usize
    ensures { result ≡ operands_at call }
{
    part_of(has_credential(call), BLOCK + CREDENTIAL)
        + behind_credential(call)
        + without_credential(call)
}

// The lengths of a kind's operands, which come first in its body, and of the body. WRITE's data follow its operands.
pub fn lengths_at(kind: u8) -> Lengths
    ensures { result ≡ lengths_at kind }
{
    let call = number_of(kind);
    let operands = operands_length(call);
    Lengths {
        operands,
        body: operands + part_of(call == 2, DATA),
    }
}

// The length of a kind's body, where there is such a kind at the port.
pub fn body_length(wire: Port, kind: u8) -> Option<usize>
    ensures { result ≡ body_length wire kind }
{
    kind_of(wire, kind)?;
    Some(lengths_at(kind).body)
}
