// SBI, 'Debug Console Extension': what a call does, by its function, its arguments and the room in the console buffer.
#![tactic(auto)]

ghost use Rattle.std.specs.Prelude.{◌≡◌, ℕ};
ghost use Rattle.scope.specs.declared.machine.Csrs.{Csrs};
ghost use Rattle.scope.specs.declared.traps.Args.{Args};
ghost use Rattle.scope.specs.Decided.{call_effect};
ghost use Rattle.scope.specs.Ecalls.{console_effect, dbcn_effect, span_effect};

use decide_record::Ecall;
use isa_types::GuestPhysAddr;
use scope::{Args, SbiCall};

#[tactic(auto, unfolding(scope::specs::Decided::call_effect, scope::specs::Ecalls::dbcn_effect))]
pub fn dbcn(e: Ecall, room: u64) -> SbiCall
    ensures { (c : Csrs) (eid : ℕ) → call_effect c eid e.fid e.args result ≡ dbcn_effect c e.fid e.args room }
{
    match e.fid {
        isa_consts::FID_CONSOLE_WRITE => console(true, e.args, room),
        isa_consts::FID_CONSOLE_READ => console(false, e.args, room),
        isa_consts::FID_CONSOLE_WRITE_BYTE => SbiCall::PutByte(e.args.a0 % 256),
        _ => decide_ecall_extensions::not_supported(),
    }
}

// The checks that console write and read share; `write` tells the two, as in console_effect and span_effect.
#[tactic(auto, unfolding(scope::specs::Decided::call_effect, scope::specs::Ecalls::console_effect, scope::specs::Ecalls::lesser_of))]
fn console(write: bool, a: Args, room: u64) -> SbiCall
    ensures { (c : Csrs) (eid fid : ℕ) → call_effect c eid fid a result ≡ console_effect c write a room }
{
    if a.a0 == 0 {
        return SbiCall::Returns(isa_consts::RET_SUCCESS, 0);
    }
    if a.a2 == 0 {
        return span(write, GuestPhysAddr(a.a1), a.a0.min(room));
    }
    SbiCall::Returns(isa_consts::RET_ERR_INVALID_PARAM, 0)
}

#[tactic(auto, unfolding(scope::specs::Decided::call_effect, scope::specs::Ecalls::span_effect))]
fn span(write: bool, at: GuestPhysAddr, count: u64) -> SbiCall
    ensures { (c : Csrs) (eid fid : ℕ) (a : Args) → call_effect c eid fid a result ≡ span_effect c write at count }
{
    if count == 0 {
        return SbiCall::Returns(isa_consts::RET_SUCCESS, 0);
    }
    if write {
        return SbiCall::CopyIn(at, count);
    }
    SbiCall::ReadConsole(at, count)
}
