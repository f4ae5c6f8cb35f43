// The types of the storage card: its record, credentials, calls, refusals and answers.
// What they mean is defined in specs/, after document 01 and the requests of document 02.
#![tactic(auto)]

ghost use Rattle.card.specs.Lent.{Shows};

// The limits of document 01.

// A card has at most so many blocks, and at most so many places for pointers.
pub const BLOCK_LIMIT: usize = 4096;

pub const PLACE_LIMIT: usize = 16384;

// The time is below 2^40.
pub const TIME_LIMIT: u64 = 1099511627776;

// The longest interval, in seconds.
pub const LONGEST_INTERVAL: u32 = 86400;

// 2026-05: the highest multiplicity of a pointer.
pub const HIGHEST_MULTIPLICITY: u16 = 65535;

// 2026-09: the flags of a block that was freed and waits to be overwritten.
pub const WAITING_FLAGS: u8 = 8;

// 2026-08: the highest price of RENT, in thousandths of a cent for a block and a day.
pub const HIGHEST_PRICE: u32 = 2000;

// The hint of an ALLOC or ALLOC_CONTIG without one, and the most blocks that one of them takes.
pub const NO_HINT: u16 = 65535;

pub const MOST_BLOCKS: u8 = 64;

// The card's small record: N, R, B, M and T of document 01, and the total of the request 2026-08.
#[derive(Drop)]
#[derive(Clone, Copy)]
pub struct Info {
    pub blocks: usize,
    pub roots: usize,
    pub bytes: usize,
    pub used: usize,
    pub time: u64,
    pub total: u64,
}

// Where a call arrives. The service port skips credentials and opens no window.
#[derive(Drop)]
#[derive(Clone, Copy)]
pub enum Port {
    Host,
    Service,
}

// The operation that a key, a window or an access test is for.
#[derive(Drop)]
#[derive(Clone, Copy)]
pub enum Mode {
    Reading,
    Writing,
}

// What a host presents to open a block: nothing, a reference block, or a key as its high and low word.
#[derive(Drop)]
#[derive(Clone, Copy)]
pub enum Credential {
    Nothing,
    Reference(u16),
    Key(u64, u64),
}

// Of READ and of WRITE. The bytes to be written stand beside the call.
#[derive(Drop)]
#[derive(Clone, Copy)]
pub struct TransferOperands {
    pub block: u16,
    pub credential: Credential,
    pub interval: u32,
}

// Of ALLOC and of ALLOC_CONTIG.
#[derive(Drop)]
#[derive(Clone, Copy)]
pub struct AllocOperands {
    pub reference: u16,
    pub credential: Credential,
    pub hint: u16,
    pub count: u8,
}

// The first credential opens the source, the second the destination.
#[derive(Drop)]
#[derive(Clone, Copy)]
pub struct CreateOperands {
    pub source: u16,
    pub credential: Credential,
    pub destination: u16,
    pub second: Credential,
}

// Of DELETE and of DELETE_TREE.
#[derive(Drop)]
#[derive(Clone, Copy)]
pub struct DeleteOperands {
    pub source: u16,
    pub credential: Credential,
    pub destination: u16,
}

// Of KEY_READ and of KEY_WRITE: a key to be set, as its high and low word, or none.
#[derive(Drop)]
#[derive(Clone, Copy)]
pub struct KeyOperands {
    pub block: u16,
    pub credential: Credential,
    pub key: Option<(u64, u64)>,
}

// Mode 0 renews the read window, 1 the write window. The key is given bare, as its two words.
#[derive(Drop)]
#[derive(Clone, Copy)]
pub struct RenewOperands {
    pub mode: u8,
    pub block: u16,
    pub high: u64,
    pub low: u64,
    pub interval: u32,
}

#[derive(Drop)]
#[derive(Clone, Copy)]
pub struct ForceOperands {
    pub block: u16,
}

#[derive(Drop)]
#[derive(Clone, Copy)]
pub struct TickOperands {
    pub seconds: u64,
}

#[derive(Drop)]
#[derive(Clone, Copy)]
pub struct RentOperands {
    pub price: u32,
}

// At most so many blocks are swept.
#[derive(Drop)]
#[derive(Clone, Copy)]
pub struct SweepOperands {
    pub most: u32,
}

// A call, with its credentials inside. Records carry all but RENT and SWEEP.
#[derive(Drop)]
#[derive(Clone, Copy)]
pub enum Call {
    Read(TransferOperands),
    Write(TransferOperands),
    Alloc(AllocOperands),
    AllocContig(AllocOperands),
    Create(CreateOperands),
    Delete(DeleteOperands),
    DeleteTree(DeleteOperands),
    KeyRead(KeyOperands),
    KeyWrite(KeyOperands),
    Renew(RenewOperands),
    Force(ForceOperands),
    Free,
    Tick(TickOperands),
    Audit,
    Rent(RentOperands),
    Sweep(SweepOperands),
}

// Why a call is refused, in the order of the numbers: 1 to 13 of document 01, 14 of the request 2026-01,
// 15 of the request 2026-07, 16 of the request 2026-08.
#[derive(Drop)]
#[derive(Clone, Copy)]
pub enum Refusal {
    Misshapen,
    Unsound,
    NotAllocated,
    BadOperand,
    NotOpened,
    IsRoot,
    CannotPoint,
    NoPointer,
    HasPointers,
    TooFewBlocks,
    TooFewPlaces,
    TimeEnds,
    BadRecord,
    NoRun,
    HasWriteKey,
    PriceTooHigh,
}

// What a call answers: why it is refused, or what it gives where it is done: no result, or one number.
// The bytes of READ and the numbers of ALLOC and ALLOC_CONTIG are in the lent buffers.
pub type Answer = Result<Option<u64>, Refusal>;

// What the audit finds of a record and its tables: three findings, of which none is a value or an error.
#[derive(Drop)]
#[derive(Clone, Copy)]
pub enum Verdict {
    Misshapen,
    Unsound,
    Sound,
}

// A card on lent tables: its record, and the seven tables that a caller lends.
#[derive(Drop)]
pub struct LentCard<'a> {
    pub info: Info,
    pub flags: &'a mut [u8],
    pub keys: &'a mut [u64],
    pub counts: &'a mut [u32],
    pub pointers: &'a mut [u32],
    pub multiplicities: &'a mut [u16],
    pub windows: &'a mut [u64],
    pub contents: &'a mut [u8],
}

// The same, lent to be read alone.
#[derive(Drop)]
#[derive(Clone, Copy)]
pub struct SharedCard<'a> {
    pub info: Info,
    pub flags: &'a [u8],
    pub keys: &'a [u64],
    pub counts: &'a [u32],
    pub pointers: &'a [u32],
    pub multiplicities: &'a [u16],
    pub windows: &'a [u64],
    pub contents: &'a [u8],
}

impl LentCard<'_> {
    // The card as it is now, to be read.
    pub fn shared(&self) -> SharedCard<'_>
        ensures { Shows result self.now }
    {
        SharedCard {
            info: self.info,
            flags: self.flags,
            keys: self.keys,
            counts: self.counts,
            pointers: self.pointers,
            multiplicities: self.multiplicities,
            windows: self.windows,
            contents: self.contents,
        }
    }
}
