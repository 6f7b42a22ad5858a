// The vCPU record in words, and the values that other words stand for, as the host's compiler sees them. A kind is a number here, since
// C reads and writes these words.
#![tactic(auto)]

ghost use Rattle.std.specs.Prelude.{◌≡◌, ◌≤◌, take};
ghost use Rattle.scope.specs.OneTrap.{fetch_of};
ghost use Rattle.std.proofs.lemmas.List.Edits.{sets};
ghost use Rattle.scope.specs.Words.{asked_word_count, waiting_count, csrs_of, csrs_words, laid_with, unpack_of, waiting_by, waiting_of, waiting_words, asked_words};

use isa_types::{GuestPhysAddr, GuestVirtAddr, Width};
use scope::{Access, Csrs, EcallAsk, Fetch, GuestCsrs, HsCsrs, Record, Vcpu, VsCsrs, Waiting};
use words_numbers::{FromNumber, Numbered};

// The record that words stand for. Functions here and no From: both types are scope's, which holds no code.
#[tactic(auto, unfolding(scope::specs::Words::unpack_of))]
pub fn unpack(r: Record) -> Vcpu
    ensures { result ≡ unpack_of r }
{
    let Record {
        x,
        csrs,
        counts,
        waiting,
    } = r;
    Vcpu {
        x,
        csrs: csrs_of(csrs),
        counts,
        waiting: waiting_of(waiting),
    }
}

// The words of a record, but these four for what waits.
#[tactic(auto, unfolding(scope::specs::Words::laid_with))]
pub fn lay(v: Vcpu, waiting: [u64; 4]) -> Record
    ensures { result ≡ laid_with v waiting }
{
    let Vcpu {
        x,
        csrs,
        counts,
        ..
    } = v;
    Record {
        x,
        csrs: csrs_words(csrs),
        counts,
        waiting,
    }
}

// The CSRs that words stand for.
#[tactic(auto, unfolding(scope::specs::Words::csrs_of))]
pub fn csrs_of(c: [u64; 13]) -> Csrs
    ensures { result ≡ csrs_of c }
{
    let guest = GuestCsrs {
        sepc: c[0],
        sstatus: c[1],
        hstatus: c[2],
    };
    let vs = VsCsrs {
        vsstatus: c[3],
        vstvec: c[4],
        vsepc: c[5],
        vscause: c[6],
        vstval: c[7],
        vstimecmp: c[8],
    };
    let hs = HsCsrs {
        hie: c[9],
        hvip: c[10],
        hgeie: c[11],
        hgatp: c[12],
    };
    Csrs { guest, vs, hs }
}

// The words of the CSRs.
#[tactic(auto, unfolding(scope::specs::Words::csrs_words))]
pub fn csrs_words(c: Csrs) -> [u64; 13]
    ensures { result ≡ csrs_words c }
{
    [
        c.guest.sepc,
        c.guest.sstatus,
        c.guest.hstatus,
        c.vs.vsstatus,
        c.vs.vstvec,
        c.vs.vsepc,
        c.vs.vscause,
        c.vs.vstval,
        c.vs.vstimecmp,
        c.hs.hie,
        c.hs.hvip,
        c.hs.hgeie,
        c.hs.hgatp,
    ]
}

// What waits, of words. An unknown kind is read as nothing waiting.
#[tactic(auto, unfolding(scope::specs::Words::waiting_of))]
pub fn waiting_of(w: [u64; 4]) -> Waiting
    ensures { result ≡ waiting_of w }
{
    waiting_by(w[0], w[1], w[2], w[3])
}

// The same of the four words each, as the entries in place read them: a definition of its own, which waiting_of cites.
#[tactic(auto, unfolding(scope::specs::Words::waiting_by, scope::specs::Words::kind_word, scope::specs::Words::waiting_words, scope::specs::Words::asked_words))]
pub fn waiting_by(kind: u64, a: u64, b: u64, c: u64) -> Waiting
    ensures { result ≡ waiting_by kind a b c }
{
    match kind {
        1 => Waiting::Load {
            rd: a as usize,
            width: Width::from_number(b),
            signed: bool::from_number(c),
        },
        2 => Waiting::FetchCsr,
        3 => Waiting::FetchFault {
            at: GuestPhysAddr(a),
            access: Access::from_number(b),
        },
        4 => Waiting::Ecall(EcallAsk::CopyMask),
        5 => Waiting::Ecall(EcallAsk::CopyIn { count: a }),
        6 => Waiting::Ecall(EcallAsk::Print { count: a }),
        7 => Waiting::Ecall(EcallAsk::ReadConsole {
            count: a,
            at: GuestPhysAddr(b),
        }),
        8 => Waiting::Ecall(EcallAsk::CopyOut { count: a }),
        9 => Waiting::Ecall(EcallAsk::PutChar),
        10 => Waiting::Ecall(EcallAsk::PutByte),
        11 => Waiting::Ecall(EcallAsk::GetChar),
        12 => Waiting::Ecall(EcallAsk::Forward),
        _ => Waiting::Idle,
    }
}

// The words of what waits.
#[tactic(auto, unfolding(scope::specs::Words::waiting_words))]
pub fn waiting_words(w: Waiting) -> [u64; 4]
    ensures { result ≡ waiting_words w }
{
    match w {
        Waiting::Idle => [0, 0, 0, 0],
        Waiting::Load { rd, width, signed } => [1, rd as u64, width.number(), signed.number()],
        Waiting::FetchCsr => [2, 0, 0, 0],
        Waiting::FetchFault { at, access } => [3, at.0, access.number(), 0],
        Waiting::Ecall(a) => asked_words(a),
    }
}

// The words of an ecall's ask.
#[tactic(auto, unfolding(scope::specs::Words::asked_words))]
fn asked_words(a: EcallAsk) -> [u64; 4]
    ensures { result ≡ asked_words a }
{
    match a {
        EcallAsk::CopyMask => [4, 0, 0, 0],
        EcallAsk::CopyIn { count } => [5, count, 0, 0],
        EcallAsk::Print { count } => [6, count, 0, 0],
        EcallAsk::ReadConsole { count, at } => [7, count, at.0, 0],
        EcallAsk::CopyOut { count } => [8, count, 0, 0],
        EcallAsk::PutChar => [9, 0, 0, 0],
        EcallAsk::PutByte => [10, 0, 0, 0],
        EcallAsk::GetChar => [11, 0, 0, 0],
        EcallAsk::Forward => [12, 0, 0, 0],
    }
}

// The waiting words where this waits after what they held: those that it has a use for, and the others as they were.
pub fn waiting_over(old: [u64; 4], w: Waiting) -> [u64; 4]
    ensures { result ≡ sets old 0 (take (waiting_count w) (waiting_words w)) }
{
    // word by word: a copy of the first n is a call of memcpy
    let [_, a, b, c] = old;
    let [kind, x, y, z] = waiting_words(w);
    match waiting_count(w) {
        1 => [kind, a, b, c],
        2 => [kind, x, b, c],
        3 => [kind, x, y, c],
        _ => [kind, x, y, z],
    }
}

// How many of the four words it has a use for: its kind, and the numbers that it carries.
#[tactic(auto, unfolding(scope::specs::Words::waiting_count))]
fn waiting_count(w: Waiting) -> usize
    ensures count { result ≡ waiting_count w }
    ensures within { result ≤ 4 }
    ensures kind { 1 ≤ result }
{
    match w {
        Waiting::Idle | Waiting::FetchCsr => 1,
        Waiting::FetchFault { .. } => 3,
        Waiting::Load { .. } => 4,
        Waiting::Ecall(a) => asked_count(a),
    }
}

#[tactic(auto, unfolding(scope::specs::Words::asked_word_count))]
fn asked_count(a: EcallAsk) -> usize
    ensures count { result ≡ asked_word_count a }
    ensures within { result ≤ 4 }
    ensures kind { 1 ≤ result }
{
    match a {
        EcallAsk::CopyIn { .. } | EcallAsk::Print { .. } | EcallAsk::CopyOut { .. } => 2,
        EcallAsk::ReadConsole { .. } => 3,
        _ => 1,
    }
}

// A fetch's result: the word, or the fault of this number; an unknown number is read as an unhandled fault.
#[tactic(auto, unfolding(scope::specs::OneTrap::fetch_of, scope::specs::OneTrap::fetch_number))]
pub fn fetch_of(word: u64, fault: u64) -> Fetch
    ensures { result ≡ fetch_of word fault }
{
    match fault {
        0 => Fetch::Word((word % 0x1_0000_0000) as u32),
        1 => Fetch::Page(GuestVirtAddr(word)),
        2 => Fetch::Access(GuestVirtAddr(word)),
        3 => Fetch::Misaligned(GuestVirtAddr(word)),
        4 => Fetch::GuestPage(GuestPhysAddr(word)),
        _ => Fetch::Unhandled,
    }
}
