// What C passes: the card's record as lent numbers, a port as a number, credentials and new keys as the bytes that records have.
#![tactic(auto)]

ghost use Rattle.std.specs.Prelude.{◌≡◌, length, Ok};
ghost use Rattle.card.specs.declared.Port.TheVariants.{Host};
ghost use Rattle.card.specs.declared.Call.TheVariants.{Force, Tick, Free, Audit, Rent, Sweep};
ghost use Rattle.decoding.specs.Decode.{read_with, write_with, alloc_with, alloc_contig_with, create_with, delete_with, delete_tree_with, key_with, renew_with};
ghost use Rattle.decoding.specs.Parsed.{ParsedIs};
ghost use Rattle.parameters.specs.Numbers.{record_length, record_of, numbers_of, credential_of, new_key_of, wire_of, call_at, at_port, decode_at};

use card::{
    Call, Credential, ForceOperands, Info, Mode, Port, RentOperands, SweepOperands, TickOperands,
};
use decoding::Parsed;
use fields::BadRecord;

// How many numbers the record has: N, R, B, M, T and the total.
pub const RECORD_LENGTH: usize = 6;

// How many bytes a credential has, and a new key.
const CREDENTIAL_LENGTH: usize = 17;

// ---- the record

pub fn load(numbers: &[u64]) -> Info
    requires { length numbers.now ≡ record_length }
    ensures { result ≡ record_of numbers.now }
{
    let fresh = tables::fresh(
        numbers[0] as usize,
        numbers[1] as usize,
        numbers[2] as usize,
    );
    let used = tables::with_used(fresh, numbers[3] as usize);
    tables::with_time(used, numbers[4], numbers[5])
}

pub fn store(numbers: &mut [u64], info: Info)
    requires { length numbers.old ≡ record_length }
    ensures { numbers.new ≡ numbers_of info }
{
    numbers[0] = info.blocks as u64;
    numbers[1] = info.roots as u64;
    numbers[2] = info.bytes as u64;
    numbers[3] = info.used as u64;
    numbers[4] = info.time;
    numbers[5] = info.total;
}

// ---- operands

pub fn credential_of(bytes: &[u8]) -> Result<Credential, BadRecord>
    ensures { result ≡ credential_of bytes.now }
{
    if bytes.len() != CREDENTIAL_LENGTH {
        return Err(BadRecord);
    }
    fields::credential(bytes, 0)
}

pub fn new_key_of(bytes: &[u8]) -> Result<Option<(u64, u64)>, BadRecord>
    ensures { result ≡ new_key_of bytes.now }
{
    if bytes.len() != CREDENTIAL_LENGTH {
        return Err(BadRecord);
    }
    fields::new_key(bytes, 0)
}

// The port of a number, if there is one: 0 is the host's, 1 the service port.
pub fn wire_of(port: u8) -> Option<Port>
    ensures { result ≡ wire_of port }
{
    match port {
        0 => Some(Port::Host),
        1 => Some(Port::Service),
        _ => None,
    }
}

// A call at the port of a number.
fn call_at(port: u8, call: Call) -> Result<(Port, Call), BadRecord>
    ensures { result ≡ call_at (wire_of port) call }
{
    match wire_of(port) {
        Some(at) => Ok((at, call)),
        None => Err(BadRecord),
    }
}

// What a kind and the bytes behind it hold that arrive at the port of a number.
pub fn decode_at(port: u8, kind: u8, body: &[u8]) -> Parsed
    ensures { ParsedIs (decode_at (wire_of port) kind body.now) body.now result }
{
    match wire_of(port) {
        Some(wire) => records::decode(wire, kind, body),
        None => records::bad(),
    }
}

// ---- the calls of what C passes: one function for each function of C, whose operands are its own

pub fn read_at(
    port: u8,
    block: u16,
    credential: &[u8],
    interval: u32,
) -> Result<(Port, Call), BadRecord>
    ensures { result ≡ at_port port (read_with Host block (credential_of credential.now) interval) }
{
    let o = records::transfer_operands(block, credential_of(credential), interval)?;
    call_at(port, Call::Read(o))
}

pub fn write_at(
    port: u8,
    block: u16,
    credential: &[u8],
    interval: u32,
) -> Result<(Port, Call), BadRecord>
    ensures { result ≡ at_port port (write_with Host block (credential_of credential.now) interval) }
{
    let o = records::transfer_operands(block, credential_of(credential), interval)?;
    call_at(port, Call::Write(o))
}

pub fn alloc_at(
    port: u8,
    block: u16,
    credential: &[u8],
    hint: u16,
    count: u8,
) -> Result<(Port, Call), BadRecord>
    ensures { result ≡ at_port port (alloc_with Host block (credential_of credential.now) hint count) }
{
    let o = records::alloc_operands(block, credential_of(credential), hint, count)?;
    call_at(port, Call::Alloc(o))
}

pub fn alloc_contig_at(
    port: u8,
    block: u16,
    credential: &[u8],
    hint: u16,
    count: u8,
) -> Result<(Port, Call), BadRecord>
    ensures { result ≡ at_port port (alloc_contig_with Host block (credential_of credential.now) hint count) }
{
    let o = records::alloc_operands(block, credential_of(credential), hint, count)?;
    call_at(port, Call::AllocContig(o))
}

pub fn create_at(
    port: u8,
    source: u16,
    credential: &[u8],
    destination: u16,
    second: &[u8],
) -> Result<(Port, Call), BadRecord>
    ensures { result ≡ at_port port (create_with Host source (credential_of credential.now) destination (credential_of second.now)) }
{
    let first = credential_of(credential);
    let o = records::create_operands(source, first, destination, credential_of(second))?;
    call_at(port, Call::Create(o))
}

pub fn delete_at(
    port: u8,
    source: u16,
    credential: &[u8],
    destination: u16,
) -> Result<(Port, Call), BadRecord>
    ensures { result ≡ at_port port (delete_with Host source (credential_of credential.now) destination) }
{
    let o = records::delete_operands(source, credential_of(credential), destination)?;
    call_at(port, Call::Delete(o))
}

pub fn delete_tree_at(
    port: u8,
    source: u16,
    credential: &[u8],
    destination: u16,
) -> Result<(Port, Call), BadRecord>
    ensures { result ≡ at_port port (delete_tree_with Host source (credential_of credential.now) destination) }
{
    let o = records::delete_operands(source, credential_of(credential), destination)?;
    call_at(port, Call::DeleteTree(o))
}

// KEY_READ or KEY_WRITE, by the mode whose key it sets.
pub fn key_at(
    mode: Mode,
    port: u8,
    block: u16,
    credential: &[u8],
    key: &[u8],
) -> Result<(Port, Call), BadRecord>
    ensures { result ≡ at_port port (key_with Host mode block (credential_of credential.now) (new_key_of key.now)) }
{
    let o = records::key_operands(block, credential_of(credential), new_key_of(key))?;
    match mode {
        Mode::Reading => call_at(port, Call::KeyRead(o)),
        Mode::Writing => call_at(port, Call::KeyWrite(o)),
    }
}

pub fn renew_call(
    mode: u8,
    block: u16,
    key: &[u8],
    interval: u32,
) -> Result<(Port, Call), BadRecord>
    ensures { result ≡ renew_with Host mode block (credential_of key.now) interval }
{
    let o = records::renew_operands(mode, block, credential_of(key), interval)?;
    Ok((Port::Host, Call::Renew(o)))
}

pub fn force_call(block: u16) -> Result<(Port, Call), BadRecord>
    ensures { result ≡ Ok (Host, Force (record { block = block })) }
{
    Ok((Port::Host, Call::Force(ForceOperands { block })))
}

pub fn tick_call(seconds: u64) -> Result<(Port, Call), BadRecord>
    ensures { result ≡ Ok (Host, Tick (record { seconds = seconds })) }
{
    Ok((Port::Host, Call::Tick(TickOperands { seconds })))
}

pub fn free_call() -> Result<(Port, Call), BadRecord>
    ensures { result ≡ Ok (Host, Free) }
{
    Ok((Port::Host, Call::Free))
}

pub fn audit_call() -> Result<(Port, Call), BadRecord>
    ensures { result ≡ Ok (Host, Audit) }
{
    Ok((Port::Host, Call::Audit))
}

pub fn rent_call(price: u32) -> Result<(Port, Call), BadRecord>
    ensures { result ≡ Ok (Host, Rent (record { price = price })) }
{
    Ok((Port::Host, Call::Rent(RentOperands { price })))
}

pub fn sweep_call(most: u32) -> Result<(Port, Call), BadRecord>
    ensures { result ≡ Ok (Host, Sweep (record { most = most })) }
{
    Ok((Port::Host, Call::Sweep(SweepOperands { most })))
}
