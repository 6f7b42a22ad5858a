// The host's answers to an ecall's asks, 2 to 9.
#![tactic(auto)]

ghost use Rattle.std.specs.Prelude.{◌≡◌};
ghost use Rattle.scope.specs.Ecalls.{console_read_effect, copied_effect, copied_out_effect, ecall_answer, mask_effect};
ghost use Rattle.scope.specs.declared.machine.Csrs.{Csrs};
ghost use Rattle.scope.specs.Decided.{answered_effect};

use isa_types::GuestPhysAddr;
use scope::{Answered, EcallAsk, IpiRequest};

// What an answer's two numbers do to the ecall that waits. They come apart, as ecall_answer takes them: each row reads one, both or none.
#[tactic(auto, unfolding(scope::specs::Decided::answered_effect, scope::specs::Ecalls::ecall_answer))]
pub fn decide(a: EcallAsk, word: u64, more: u64) -> Answered
    ensures { (c : Csrs) → answered_effect c result ≡ ecall_answer c a word more }
{
    match a {
        EcallAsk::CopyMask => mask(decide_ipi::legacy_request(word, more)),
        EcallAsk::CopyIn { count } => copied(count, word),
        EcallAsk::Print { .. } => Answered::Returns(word, more),
        EcallAsk::ReadConsole { count, at } => read(count, at, word, more),
        EcallAsk::CopyOut { count } => copied_out(count, word),
        EcallAsk::PutChar => Answered::Moves,
        EcallAsk::PutByte => Answered::Returns(isa_consts::RET_SUCCESS, 0),
        EcallAsk::GetChar => Answered::Gives(word),
        EcallAsk::Forward => Answered::Returns(word, more),
    }
}

// Legacy 4, ask 2.
#[tactic(auto, unfolding(scope::specs::Decided::answered_effect, scope::specs::Ecalls::mask_effect))]
fn mask(q: Option<IpiRequest>) -> Answered
    ensures { (c : Csrs) → answered_effect c result ≡ mask_effect c q }
{
    match q {
        Some(request) => Answered::SendIpi(request),
        None => Answered::Returns(isa_consts::RET_ERR_FAILED, 0),
    }
}

// DBCN fid 0, ask 3. (copied_out has the same test and another end: two rows of 01, two definitions.)
#[tactic(auto, unfolding(scope::specs::Decided::answered_effect, scope::specs::Ecalls::copied_effect))]
fn copied(count: u64, got: u64) -> Answered
    ensures { (c : Csrs) → answered_effect c result ≡ copied_effect c count got }
{
    if got == count {
        return Answered::Print(count);
    }
    Answered::Returns(isa_consts::RET_ERR_FAILED, 0)
}

// DBCN fid 1, ask 5.
#[tactic(auto, unfolding(scope::specs::Decided::answered_effect, scope::specs::Ecalls::console_read_effect))]
fn read(count: u64, at: GuestPhysAddr, error: u64, value: u64) -> Answered
    ensures { (c : Csrs) → answered_effect c result ≡ console_read_effect c count at error value }
{
    if error == 0 && value != 0 && value <= count {
        return Answered::CopyOut(at, value);
    }
    Answered::Returns(error, value)
}

// DBCN fid 1, ask 6.
#[tactic(auto, unfolding(scope::specs::Decided::answered_effect, scope::specs::Ecalls::copied_out_effect))]
fn copied_out(count: u64, got: u64) -> Answered
    ensures { (c : Csrs) → answered_effect c result ≡ copied_out_effect c count got }
{
    if got == count {
        return Answered::Returns(isa_consts::RET_SUCCESS, count);
    }
    Answered::Returns(isa_consts::RET_ERR_FAILED, 0)
}
