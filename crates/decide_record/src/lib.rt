// The parts of a vCPU record, read and changed: sepc, the timer, hvip, a register, the ask that waits. Both entries use them.
#![tactic(auto)]

ghost use Rattle.std.specs.Prelude.{◌≡◌, get_or};
ghost use Rattle.scope.specs.Calls.{fitted, print_count, printable};
ghost use Rattle.scope.specs.Classes.{arguments_of};
ghost use Rattle.scope.specs.Record.{is_idle, moved, pended, timed, value_of, waiting_ask, ecall_ask_number};

use scope::{Args, Csrs, EcallAsk, Waiting};

// sepc moves on.
#[tactic(auto, unfolding(scope::specs::Record::moved))]
pub fn advance(csrs: Csrs, by: u64) -> Csrs
    ensures { result ≡ moved csrs by }
{
    let mut c = csrs;
    c.guest.sepc = csrs.guest.sepc.wrapping_add(by);
    c
}

// The guest's timer is set. (This, with_hvip and the like of decide_host write one field each, each by its own definition: a closure for the
// field would be no plainer.)
#[tactic(auto, unfolding(scope::specs::Record::timed))]
pub fn with_timer(csrs: Csrs, deadline: u64) -> Csrs
    ensures { result ≡ timed csrs deadline }
{
    let mut c = csrs;
    c.vs.vstimecmp = deadline;
    c
}

// The guest's pending interrupts are these.
#[tactic(auto, unfolding(scope::specs::Record::pended))]
pub fn with_hvip(csrs: Csrs, hvip: u64) -> Csrs
    ensures { result ≡ pended csrs hvip }
{
    let mut c = csrs;
    c.hs.hvip = hvip;
    c
}

// A general register, of those that words begin with; x0 reads 0, and so does one that isn't there. No jump hangs on which of the 32 it
// is.
#[tactic(auto, unfolding(scope::specs::Record::value_of))]
pub fn register<const N: usize>(x: &[u64; N], i: usize) -> u64
    ensures { result ≡ value_of x.now i }
{
    if i < 32 && i < N {
        return isa_types::select(i == 0, 0, x[i]);
    }
    0
}

// An SBI call: its extension, its function and its arguments.
#[derive(Clone, Copy)]
pub struct Ecall {
    pub eid: u64,
    pub fid: u64,
    pub args: Args,
}

impl Ecall {
    // The call that a guest's registers make, which words begin with: a7, a6, and a0 to a5.
    #[tactic(auto, unfolding(scope::specs::Classes::arguments_of, scope::specs::Record::value_of))]
    pub fn of<const N: usize>(x: &[u64; N]) -> Ecall
        ensures eid { result.eid ≡ get_or x.now 17 0 }
        ensures fid { result.fid ≡ get_or x.now 16 0 }
        ensures args { result.args ≡ arguments_of x.now }
    {
        Ecall {
            eid: register(x, 17),
            fid: register(x, 16),
            args: Args {
                a0: register(x, 10),
                a1: register(x, 11),
                a2: register(x, 12),
                a3: register(x, 13),
                a4: register(x, 14),
                a5: register(x, 15),
            },
        }
    }
}

// The number of the ask that waits; 0 where none does: 01's number, as waiting_ask has it, which an answer's own is held against.
#[tactic(auto, unfolding(scope::specs::Record::waiting_ask))]
pub fn ask_of(w: Waiting) -> u64
    ensures { result ≡ waiting_ask w }
{
    match w {
        Waiting::Idle | Waiting::Load { .. } => 0,
        Waiting::FetchCsr | Waiting::FetchFault { .. } => 1,
        Waiting::Ecall(a) => ecall_ask(a),
    }
}

// The number of an ecall's ask.
#[tactic(auto, unfolding(scope::specs::Record::ecall_ask_number))]
pub fn ecall_ask(a: EcallAsk) -> u64
    ensures { result ≡ ecall_ask_number a }
{
    match a {
        EcallAsk::CopyMask => 2,
        EcallAsk::CopyIn { .. } => 3,
        EcallAsk::Print { .. } => 4,
        EcallAsk::ReadConsole { .. } => 5,
        EcallAsk::CopyOut { .. } => 6,
        EcallAsk::PutChar | EcallAsk::PutByte => 7,
        EcallAsk::GetChar => 8,
        EcallAsk::Forward => 9,
    }
}

// Neither an ask nor a load waits.
#[tactic(auto, unfolding(scope::specs::Record::is_idle))]
pub fn is_idle(w: Waiting) -> bool
    ensures { result ≡ is_idle w }
{
    matches!(w, Waiting::Idle)
}

// How many bytes of a lent buffer of this length are printed: n under ask 4, if it has n; else none.
#[tactic(auto, unfolding(scope::specs::Calls::printable))]
pub fn printable(w: Waiting, length: u64) -> u64
    ensures { result ≡ printable w length }
{
    fit(print_count(w), length)
}

#[tactic(auto, unfolding(scope::specs::Calls::fitted))]
fn fit(n: u64, length: u64) -> u64
    ensures { result ≡ fitted n length }
{
    if n <= length {
        return n;
    }
    0
}

// The n of ask 4, where it waits, else 0: print_count says so, and C is told so many bytes.
#[tactic(auto, unfolding(scope::specs::Calls::print_count, scope::specs::Calls::asked_count))]
pub fn print_count(w: Waiting) -> u64
    ensures { result ≡ print_count w }
{
    match w {
        Waiting::Ecall(EcallAsk::Print { count }) => count,
        _ => 0,
    }
}
