// A trap's start: what each class does. The work of each class is in its own crate, and scope/specs/Classes.antt defines the whole.
#![tactic(auto)]

ghost use Rattle.std.specs.Prelude.{◌≡◌, get_or};
ghost use Rattle.scope.specs.Record.{value_of};
ghost use Rattle.scope.specs.Classes.{arguments_of, start_effect};
ghost use Rattle.scope.specs.GuestPageFault.{page_fault_of, mmio_of};
ghost use Rattle.scope.specs.Ecalls.{ecall_effect};
ghost use Rattle.scope.specs.VirtualInstruction.{virtual_effect};

use decide_record::Ecall;
use isa_decoder::Trapped;
use isa_types::GuestPhysAddr;
use scope::{Access, Class, Csrs, Effect, Error, Event, Exit, Trap, Vcpu, Writes};

// Starts a trap: what each class does, if nothing waits. The record is taken apart here, and what is called takes its parts: while each
// took the record, the compiler kept a copy of it for each end of a call, and `vcpu_call` took half as long again.
#[tactic(auto, unfolding(scope::specs::Classes::start_effect, scope::specs::Classes::class_effect))]
pub fn start(v: Vcpu, t: Trap) -> Effect
    ensures { result ≡ start_effect v.x v.csrs v.waiting t }
{
    let x = v.x;
    let c = v.csrs;
    if !decide_record::is_idle(v.waiting) {
        return decide_effects::refused(c, v.waiting, Error::BadState);
    }
    match decide_class::class_of(t.scause) {
        Class::Ecall => ecall(x, c, t.room),
        Class::VirtualInstruction => {
            let rs1 = content_of(x, isa_fields::rs1(t.stval % 0x1_0000_0000));
            virtual_inst(c, t.stval, rs1)
        }
        Class::PageFault(access) => page_fault(x, c, t, access),
        Class::Interrupt => decide_effects::finished(
            c,
            Event::Quiet,
            Writes::Keep,
            Exit::ExternalInterrupt { vector: t.scause },
        ),
        Class::NotHandled => decide_effects::failed(c, Event::Quiet, Error::Unsupported),
        Class::Unknown => decide_effects::failed(c, Event::Quiet, Error::InvalidTrap),
    }
}

// An SBI call.
#[tactic(auto, unfolding(scope::specs::Ecalls::ecall_effect))]
fn ecall(x: [u64; 32], c: Csrs, room: u64) -> Effect
    ensures { result ≡ ecall_effect c (get_or x 17 0) (get_or x 16 0) (arguments_of x) room }
{
    let e = ecall_of(x);
    by_value_ecall::effect(c, e, decide_ecall::decide(e, room))
}

// What the guest calls. This and `content_of` take the registers by value, as what calls them does: where they were lent, the compiler
// kept a copy of the record for each end of a call too.
fn ecall_of(x: [u64; 32]) -> Ecall
    ensures eid { result.eid ≡ get_or x 17 0 }
    ensures fid { result.fid ≡ get_or x 16 0 }
    ensures args { result.args ≡ arguments_of x }
{
    Ecall::of(&x)
}

// A register's content.
pub fn content_of(x: [u64; 32], i: usize) -> u64
    ensures { result ≡ value_of x i }
{
    decide_record::register(&x, i)
}

// A virtual instruction, with the content of its rs1.
#[tactic(auto, unfolding(scope::specs::VirtualInstruction::virtual_effect))]
fn virtual_inst(c: Csrs, stval: u64, rs1: u64) -> Effect
    ensures { result ≡ virtual_effect c stval rs1 }
{
    let d = decide_virtual_inst::decide_stval(stval, c.vs.vstimecmp, rs1);
    by_value_classes::csr(c, d)
}

// A guest page fault.
#[tactic(auto, unfolding(scope::specs::GuestPageFault::page_fault_of))]
fn page_fault(x: [u64; 32], c: Csrs, t: Trap, access: Access) -> Effect
    ensures { result ≡ page_fault_of x c t access }
{
    let at = isa_registers::guest_page_fault_addr(t.htval, t.stval);
    mmio(x, c, at, access, isa_decoder::from_htinst(t.htinst))
}

// A load or store of a device, once its instruction is known.
#[tactic(auto, unfolding(scope::specs::GuestPageFault::mmio_of))]
pub fn mmio(x: [u64; 32], c: Csrs, at: GuestPhysAddr, access: Access, i: Trapped) -> Effect
    ensures { result ≡ mmio_of x c at access i }
{
    let source = content_of(x, isa_decoder::store_source(i));
    by_value_classes::fault(c, at, access, decide_page_fault::decide(access, i, source))
}
