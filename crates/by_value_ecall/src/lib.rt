// SBI calls by value: the effect of each, and of the answer to its ask.
#![tactic(auto)]

ghost use Rattle.std.specs.Prelude.{◌≡◌};
ghost use Rattle.scope.specs.Ecalls.{asks_of, clear_ipi_of, hypercall_of, moves_of, returns_of, set_timer_of, stays_of, gives_of};
ghost use Rattle.scope.specs.Decided.{call_effect, answered_effect};
ghost use Rattle.scope.specs.Record.{moved};
ghost use Rattle.scope.specs.Refusals.{finished_of};

use decide_record::Ecall;
use scope::{Answered, Ask, Csrs, EcallAsk, Effect, Event, Exit, SbiCall, Waiting, Writes};

// The effect of a call on the record.
#[tactic(auto, unfolding(scope::specs::Decided::call_effect, scope::specs::Ecalls::forward_effect))]
pub fn effect(c: Csrs, e: Ecall, call: SbiCall) -> Effect
    ensures { result ≡ call_effect c e.eid e.fid e.args call }
{
    match call {
        SbiCall::Returns(error, value) => returns(c, error, value),
        SbiCall::Moves => moves(c, Exit::Nothing),
        SbiCall::LegacyTimer(d) => set_timer(c, d, Writes::One(10, 0)),
        SbiCall::SetTimer(d) => set_timer(c, d, Writes::Pair(0, 0)),
        SbiCall::ClearIpi => clear_ipi(c),
        SbiCall::PutChar(n) => asks(c, EcallAsk::PutChar, Ask::Emit { number: n }),
        SbiCall::GetChar => asks(c, EcallAsk::GetChar, Ask::GetChar),
        SbiCall::CopyMask(at) => asks(c, EcallAsk::CopyMask, Ask::CopyMask { at }),
        SbiCall::SendIpi(request) => moves(c, Exit::SendIpi(request)),
        SbiCall::CpuUp(target_cpu, entry_point, arg) => moves(
            c,
            Exit::CpuUp {
                target_cpu,
                entry_point,
                arg,
            },
        ),
        SbiCall::CpuDown => stays(c, Exit::CpuDown { state: 0 }),
        SbiCall::Halt => stays(c, Exit::Halt),
        SbiCall::SystemDown => stays(c, Exit::SystemDown),
        SbiCall::Hypercall => hypercall(c, e),
        SbiCall::CopyIn(at, count) => {
            asks(c, EcallAsk::CopyIn { count }, Ask::CopyIn { at, count })
        }
        SbiCall::ReadConsole(at, count) => asks(
            c,
            EcallAsk::ReadConsole { count, at },
            Ask::ReadConsole { count },
        ),
        SbiCall::PutByte(n) => asks(c, EcallAsk::PutByte, Ask::Emit { number: n }),
        SbiCall::Forward(event) => {
            let ask = Ask::Forward {
                eid: e.eid,
                fid: e.fid,
                args: e.args,
            };
            decide_effects::asking(c, event, Waiting::Ecall(EcallAsk::Forward), ask)
        }
    }
}

// The effect of the answer to an ecall's ask.
#[tactic(auto, unfolding(scope::specs::Decided::answered_effect))]
pub fn answered(c: Csrs, d: Answered) -> Effect
    ensures { result ≡ answered_effect c d }
{
    match d {
        Answered::Moves => moves(c, Exit::Nothing),
        Answered::Gives(n) => gives(c, n),
        Answered::Returns(e, v) => returns(c, e, v),
        Answered::SendIpi(request) => moves(c, Exit::SendIpi(request)),
        Answered::Print(count) => asks(c, EcallAsk::Print { count }, Ask::Print { count }),
        Answered::CopyOut(at, count) => {
            asks(c, EcallAsk::CopyOut { count }, Ask::CopyOut { at, count })
        }
    }
}

// "Return e, v" of document 01.
#[tactic(auto, unfolding(scope::specs::Ecalls::returns_of))]
fn returns(c: Csrs, error: u64, value: u64) -> Effect
    ensures { result ≡ returns_of c error value }
{
    onward(c, Event::Quiet, Writes::Pair(error, value), Exit::Nothing)
}

// sepc moves on, no register is written.
#[tactic(auto, unfolding(scope::specs::Ecalls::moves_of))]
fn moves(c: Csrs, exit: Exit) -> Effect
    ensures { result ≡ moves_of c exit }
{
    onward(c, Event::Quiet, Writes::Keep, exit)
}

// a0 is the number.
#[tactic(auto, unfolding(scope::specs::Ecalls::gives_of))]
fn gives(c: Csrs, n: u64) -> Effect
    ensures { result ≡ gives_of c n }
{
    onward(c, Event::Quiet, Writes::One(10, n), Exit::Nothing)
}

// The trap is finished and sepc moves on.
fn onward(c: Csrs, event: Event, writes: Writes, exit: Exit) -> Effect
    ensures { result ≡ finished_of (moved c 4) event writes exit }
{
    decide_effects::finished(decide_record::advance(c, 4), event, writes, exit)
}

// sepc stays.
#[tactic(auto, unfolding(scope::specs::Ecalls::stays_of))]
fn stays(c: Csrs, exit: Exit) -> Effect
    ensures { result ≡ stays_of c exit }
{
    decide_effects::finished(c, Event::Quiet, Writes::Keep, exit)
}

// An ask, with what its answer needs.
#[tactic(auto, unfolding(scope::specs::Ecalls::asks_of))]
fn asks(c: Csrs, waiting: EcallAsk, ask: Ask) -> Effect
    ensures { result ≡ asks_of c waiting ask }
{
    decide_effects::asking(c, Event::Quiet, Waiting::Ecall(waiting), ask)
}

// Both set-timer calls, which differ in the registers that they write.
#[tactic(auto, unfolding(scope::specs::Ecalls::set_timer_of))]
fn set_timer(c: Csrs, deadline: u64, writes: Writes) -> Effect
    ensures { result ≡ set_timer_of c deadline writes }
{
    let armed = decide_record::with_timer(c, deadline);
    let hvip = isa_registers::with_bits(c.hs.hvip, isa_consts::VSTIP, false);
    let cleared = decide_record::with_hvip(armed, hvip);
    onward(cleared, Event::SetTimer, writes, Exit::Nothing)
}

// Legacy 3.
#[tactic(auto, unfolding(scope::specs::Ecalls::clear_ipi_of, scope::specs::Ecalls::gives_of))]
fn clear_ipi(c: Csrs) -> Effect
    ensures { result ≡ clear_ipi_of c }
{
    let hvip = isa_registers::with_bits(c.hs.hvip, isa_consts::VSSIP, false);
    let cleared = decide_record::with_hvip(c, hvip);
    gives(cleared, 0)
}

// EID_HVC: the arguments stand beside the exit.
#[tactic(auto, unfolding(scope::specs::Ecalls::hypercall_of, scope::specs::Ecalls::moves_of, scope::specs::Refusals::finished_of))]
fn hypercall(c: Csrs, e: Ecall) -> Effect
    ensures { result ≡ hypercall_of c e.fid e.args }
{
    Effect {
        args: e.args,
        ..moves(c, Exit::Hypercall { nr: e.fid })
    }
}
