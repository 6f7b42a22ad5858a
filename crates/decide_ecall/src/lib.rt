// A guest's SBI call: what is to be done, decided from the call's numbers alone.
#![tactic(auto, unfolding(scope::specs::Decided::call_effect, scope::specs::Ecalls::ecall_effect, scope::specs::Ecalls::forward_effect, scope::specs::Ecalls::lesser_of))]

ghost use Rattle.std.specs.Prelude.{◌≡◌};
ghost use Rattle.scope.specs.declared.machine.Csrs.{Csrs};
ghost use Rattle.scope.specs.Decided.{call_effect};
ghost use Rattle.scope.specs.Ecalls.{ecall_effect};

use decide_record::Ecall;
use isa_types::GuestVirtAddr;
use scope::{Event, SbiCall};

// What the call does with this much room in the console buffer.
pub fn decide(e: Ecall, room: u64) -> SbiCall
    ensures { (c : Csrs) → call_effect c e.eid e.fid e.args result ≡ ecall_effect c e.eid e.fid e.args room }
{
    match e.eid {
        isa_consts::LEGACY_SET_TIMER => SbiCall::LegacyTimer(e.args.a0),
        isa_consts::LEGACY_CONSOLE_PUTCHAR => SbiCall::PutChar(e.args.a0),
        isa_consts::LEGACY_CONSOLE_GETCHAR => SbiCall::GetChar,
        isa_consts::LEGACY_CLEAR_IPI => SbiCall::ClearIpi,
        isa_consts::LEGACY_SEND_IPI => SbiCall::CopyMask(GuestVirtAddr(e.args.a0)),
        isa_consts::LEGACY_REMOTE_FENCE_I => SbiCall::Moves,
        isa_consts::LEGACY_REMOTE_SFENCE_VMA => SbiCall::Moves,
        isa_consts::LEGACY_REMOTE_SFENCE_VMA_ASID => SbiCall::Moves,
        isa_consts::LEGACY_SHUTDOWN => SbiCall::SystemDown,
        isa_consts::EID_TIME => decide_ecall_extensions::time(e),
        isa_consts::EID_SPI => decide_ecall_extensions::spi(e),
        isa_consts::EID_HSM => decide_ecall_extensions::hsm(e),
        isa_consts::EID_HVC => SbiCall::Hypercall,
        isa_consts::EID_SRST => decide_ecall_extensions::srst(e),
        isa_consts::EID_DBCN => decide_ecall_console::dbcn(e, room.min(isa_consts::CONSOLE_ROOM)),
        isa_consts::EID_RFNC => decide_ecall_extensions::rfnc(e.fid),
        _ => SbiCall::Forward(Event::Quiet),
    }
}
