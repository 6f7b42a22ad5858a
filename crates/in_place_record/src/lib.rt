// A vCPU record as 58 lent words, and writes that change it where it lies; in_place_read reads it, in_place_write has the other writes.
// specs/View.antt gives the words their meaning; specs/Rows.antt says what each decision does to them, and proofs/EachRow.antt and
// proofs/Laws.antt that this is the effect of the same decision.
// The record and the eight words of a reply go side by side, as C lends them: about half of the functions take the record alone, and a
// struct of the two loans would be taken apart at each of these calls. The 58 words are an array and no struct with methods, since C lends the
// array and every promise speaks of its list.
#![tactic(auto)]

ghost use Rattle.std.specs.Prelude.{◌≡◌};
ghost use Rattle.in_place_record.specs.Rows.{complete_word, complete_words, give_words, moved_words, put_word};

use scope::Waiting;

// What a call returns, as `reply_word` of scope/specs/ReplyWords.antt has it: an exit's number, 0x20 and an ask's, done or a value, 0x100
// and a refusal's. The functions return the number: their promises (`Laid`, `Settled`, `Leaves`) speak of the word that C gets. These two
// enums have their numbers beside their names since they are those words; the types of scope have them in specs alone.
#[derive(Clone, Copy)]
pub enum ReplyWord {
    Nothing = 0,
    ExternalInterrupt = 1,
    SendIpi = 2,
    CpuUp = 3,
    CpuDown = 4,
    Halt = 5,
    Hypercall = 6,
    SystemDown = 7,
    NestedPageFault = 8,
    MmioRead = 9,
    MmioWrite = 10,
    Fetch = 0x21,
    CopyMask = 0x22,
    CopyIn = 0x23,
    Print = 0x24,
    ReadConsole = 0x25,
    CopyOut = 0x26,
    Emit = 0x27,
    GetChar = 0x28,
    Forward = 0x29,
    Done = 0x40,
    Value = 0x41,
    InvalidInput = 0x101,
    BadState = 0x102,
    Unsupported = 0x103,
    InvalidTrap = 0x104,
    DecodeFailed = 0x105,
    GuestMemoryFault = 0x106,
    WrongAnswer = 0x107,
}

// The kinds of what waits, as the word KIND has them (`kind_word` of scope/specs/Words.antt).
#[derive(Clone, Copy)]
pub enum WaitingKind {
    Idle = 0,
    Load = 1,
    FetchCsr = 2,
    FetchFault = 3,
    CopyMask = 4,
    CopyIn = 5,
    Print = 6,
    ReadConsole = 7,
    CopyOut = 8,
    PutChar = 9,
    PutByte = 10,
    GetChar = 11,
    Forward = 12,
}

// Where each word lies.
pub const A0: usize = 10;

pub const A1: usize = 11;

pub const A2: usize = 12;

pub const A3: usize = 13;

pub const A4: usize = 14;

pub const A5: usize = 15;

pub const A6: usize = 16;

pub const A7: usize = 17;

pub const SEPC: usize = 32;

pub const SSTATUS: usize = 33;

pub const HSTATUS: usize = 34;

pub const VSSTATUS: usize = 35;

pub const VSTVEC: usize = 36;

pub const VSEPC: usize = 37;

pub const VSCAUSE: usize = 38;

pub const VSTVAL: usize = 39;

pub const VSTIMECMP: usize = 40;

pub const HIE: usize = 41;

pub const HVIP: usize = 42;

pub const HGEIE: usize = 43;

pub const HGATP: usize = 44;
// The waiting part: its kind, and three numbers.
pub const KIND: usize = 54;

pub const FIRST: usize = 55;

pub const SECOND: usize = 56;

pub const THIRD: usize = 57;

// Writes a general register. x0's slot gets back what it held, so that no jump hangs on the register.
pub fn put(r: &mut [u64; 58], i: usize, n: u64)
    ensures { r.new ≡ put_word r.old i n }
{
    let slot = r[0];
    if i < 32 {
        r[i] = n;
        r[0] = slot;
    }
}

// Completes a load, where one waits.
#[tactic(auto, unfolding(crate::specs::Rows::complete_words, crate::specs::Rows::complete_word))]
pub fn complete(r: &mut [u64; 58], w: Waiting, n: u64) -> u64
    ensures { (r.new ≡ complete_words r.old w n) × (result ≡ complete_word w) }
{
    match w {
        Waiting::Load { rd, width, signed } => {
            r[KIND] = WaitingKind::Idle as u64;
            put(r, rd, isa_extension::extend(width, signed, n));
            ReplyWord::Done as u64
        }
        _ => ReplyWord::BadState as u64,
    }
}

// sepc moves on.
#[tactic(auto, unfolding(crate::specs::Rows::moved_words, isa_types::specs::Pick::wrapped))]
pub fn advance(r: &mut [u64; 58], by: u64)
    ensures { r.new ≡ moved_words r.old by }
{
    r[SEPC] = r[SEPC].wrapping_add(by);
}

// a0 is this, and the call is finished.
#[tactic(auto, unfolding(crate::specs::Rows::give_words))]
pub fn give(r: &mut [u64; 58], n: u64)
    ensures { r.new ≡ give_words r.old n }
{
    r[KIND] = WaitingKind::Idle as u64;
    r[A0] = n;
    advance(r, 4);
}
