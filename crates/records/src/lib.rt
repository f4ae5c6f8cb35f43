// Decoding a call record: from a kind and the bytes of a body to the call and its port.
// What is right is defined in specs/, after document 01, "Call records and the player", and the requests.
#![tactic(auto)]

ghost use Rattle.std.specs.Prelude.{◌≡◌, ◌≤◌, length, drop, get_or};
ghost use Rattle.fields.specs.Bytes.{number};
ghost use Rattle.fields.specs.Fields.{credential, new_key};
ghost use Rattle.kinds.specs.Kinds.{length_of};
ghost use Rattle.decoding.specs.Decode.{transfer_operands, alloc_operands, create_operands, delete_operands, key_operands, renew_operands, decode_call, decode_body};
ghost use Rattle.decoding.specs.Parsed.{parsed_bad, ParsedIs};

use card::{
    AllocOperands, Call, CreateOperands, Credential, DeleteOperands, ForceOperands, KeyOperands,
    Port, RenewOperands, TickOperands, TransferOperands,
};
use decoding::Parsed;
use fields::BadRecord;
use kinds::Name;

// ---- operands, with a credential that is right or wrong, however they are passed

// Of READ and of WRITE.
pub fn transfer_operands(
    block: u16,
    credential: Result<Credential, BadRecord>,
    interval: u32,
) -> Result<TransferOperands, BadRecord>
    ensures { result ≡ transfer_operands block credential interval }
{
    Ok(TransferOperands {
        block,
        credential: credential?,
        interval,
    })
}

// Of ALLOC and of ALLOC_CONTIG.
pub fn alloc_operands(
    reference: u16,
    credential: Result<Credential, BadRecord>,
    hint: u16,
    count: u8,
) -> Result<AllocOperands, BadRecord>
    ensures { result ≡ alloc_operands reference credential hint count }
{
    Ok(AllocOperands {
        reference,
        credential: credential?,
        hint,
        count,
    })
}

pub fn create_operands(
    source: u16,
    credential: Result<Credential, BadRecord>,
    destination: u16,
    second: Result<Credential, BadRecord>,
) -> Result<CreateOperands, BadRecord>
    ensures { result ≡ create_operands source credential destination second }
{
    Ok(CreateOperands {
        source,
        credential: credential?,
        destination,
        second: second?,
    })
}

// Of DELETE and of DELETE_TREE.
pub fn delete_operands(
    source: u16,
    credential: Result<Credential, BadRecord>,
    destination: u16,
) -> Result<DeleteOperands, BadRecord>
    ensures { result ≡ delete_operands source credential destination }
{
    Ok(DeleteOperands {
        source,
        credential: credential?,
        destination,
    })
}

// Of KEY_READ and of KEY_WRITE.
pub fn key_operands(
    block: u16,
    credential: Result<Credential, BadRecord>,
    key: Result<Option<(u64, u64)>, BadRecord>,
) -> Result<KeyOperands, BadRecord>
    ensures { result ≡ key_operands block credential key }
{
    Ok(KeyOperands {
        block,
        credential: credential?,
        key: key?,
    })
}

// RENEW is by a key alone.
pub fn renew_operands(
    mode: u8,
    block: u16,
    credential: Result<Credential, BadRecord>,
    interval: u32,
) -> Result<RenewOperands, BadRecord>
    ensures { result ≡ renew_operands mode block credential interval }
{
    match credential? {
        Credential::Key(high, low) => Ok(RenewOperands {
            mode,
            block,
            high,
            low,
            interval,
        }),
        Credential::Nothing => Err(BadRecord),
        Credential::Reference(_) => Err(BadRecord),
    }
}

// ---- bodies

// Each function for the operands of a call looks at a body that is not cut short.

// WRITE's data stay in the body, behind the bytes that are looked at here.
fn decode_transfer(body: &[u8]) -> Result<TransferOperands, BadRecord>
    requires { 23 ≤ length body.now }
    ensures { result ≡ transfer_operands (number 2 body.now) (credential (drop 2 body.now)) (number 4 (drop 19 body.now)) }
{
    let block = fields::two(body, 0);
    let credential = fields::credential(body, 2);
    let interval = fields::four(body, 19);
    transfer_operands(block, credential, interval)
}

fn decode_alloc(body: &[u8]) -> Result<AllocOperands, BadRecord>
    requires { 22 ≤ length body.now }
    ensures { result ≡ alloc_operands (number 2 body.now) (credential (drop 2 body.now)) (number 2 (drop 19 body.now)) (get_or body.now 21 0) }
{
    let reference = fields::two(body, 0);
    let credential = fields::credential(body, 2);
    let hint = fields::two(body, 19);
    alloc_operands(reference, credential, hint, body[21])
}

fn decode_create(body: &[u8]) -> Result<CreateOperands, BadRecord>
    requires { 38 ≤ length body.now }
    ensures { result ≡ create_operands (number 2 body.now) (credential (drop 2 body.now)) (number 2 (drop 19 body.now)) (credential (drop 21 body.now)) }
{
    let source = fields::two(body, 0);
    let credential = fields::credential(body, 2);
    let destination = fields::two(body, 19);
    let second = fields::credential(body, 21);
    create_operands(source, credential, destination, second)
}

fn decode_delete(body: &[u8]) -> Result<DeleteOperands, BadRecord>
    requires { 21 ≤ length body.now }
    ensures { result ≡ delete_operands (number 2 body.now) (credential (drop 2 body.now)) (number 2 (drop 19 body.now)) }
{
    let source = fields::two(body, 0);
    let credential = fields::credential(body, 2);
    let destination = fields::two(body, 19);
    delete_operands(source, credential, destination)
}

fn decode_key(body: &[u8]) -> Result<KeyOperands, BadRecord>
    requires { 36 ≤ length body.now }
    ensures { result ≡ key_operands (number 2 body.now) (credential (drop 2 body.now)) (new_key (drop 19 body.now)) }
{
    let block = fields::two(body, 0);
    let credential = fields::credential(body, 2);
    let key = fields::new_key(body, 19);
    key_operands(block, credential, key)
}

// The key stands bare.
fn decode_renew(body: &[u8]) -> RenewOperands
    requires { 23 ≤ length body.now }
    ensures { (port : Port) → Ok (port, Call.Renew result) ≡ decode_call port Name.Renew body.now }
{
    RenewOperands {
        mode: body[0],
        block: fields::two(body, 1),
        high: fields::eight(body, 3),
        low: fields::eight(body, 11),
        interval: fields::four(body, 19),
    }
}

// A body that is not cut short, by its call.
fn decode_call(port: Port, name: Name, body: &[u8]) -> Result<(Port, Call), BadRecord>
    requires { length_of name ≤ length body.now }
    ensures { result ≡ decode_call port name body.now }
{
    let call = match name {
        Name::Read => Call::Read(decode_transfer(body)?),
        Name::Write => Call::Write(decode_transfer(body)?),
        Name::Alloc => Call::Alloc(decode_alloc(body)?),
        Name::Create => Call::Create(decode_create(body)?),
        Name::Delete => Call::Delete(decode_delete(body)?),
        Name::KeyRead => Call::KeyRead(decode_key(body)?),
        Name::Renew => Call::Renew(decode_renew(body)),
        Name::Force => Call::Force(ForceOperands {
            block: fields::two(body, 0),
        }),
        Name::Free => Call::Free,
        Name::Tick => Call::Tick(TickOperands {
            seconds: fields::eight(body, 0),
        }),
        Name::Audit => Call::Audit,
        Name::AllocContig => Call::AllocContig(decode_alloc(body)?),
        Name::KeyWrite => Call::KeyWrite(decode_key(body)?),
        Name::DeleteTree => Call::DeleteTree(decode_delete(body)?),
    };
    Ok((port, call))
}

// Refusal 13: there is no body.
pub fn bad() -> Parsed
    ensures { result ≡ parsed_bad }
{
    Parsed {
        decoding: Err(BadRecord),
        payload: 0,
        end: 0,
    }
}

// What a kind and the bytes behind it hold, of which only the body's are looked at.
pub fn decode(wire: Port, kind: u8, body: &[u8]) -> Parsed
    ensures { ParsedIs (decode_body wire kind body.now) body.now result }
{
    let Some((port, name)) = lengths::kind_of(wire, kind) else {
        return bad();
    };
    let lengths = lengths::lengths_at(kind);
    if body.len() < lengths.body {
        return bad();
    }
    Parsed {
        decoding: decode_call(port, name, body),
        payload: lengths.operands,
        end: lengths.body,
    }
}
