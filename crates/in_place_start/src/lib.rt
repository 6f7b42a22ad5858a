// A trap on the lent words: its class by scause, and each class's decision done. The decisions are those of the by-value
// step, and so is what is promised: Laid says it of the whole outcome.
#![tactic(auto)]

ghost use Rattle.std.specs.Prelude.{◌≡◌, ◌%◌, ◌^◌, get_or};
ghost use Rattle.scope.specs.declared.hosts.HostCall.TheVariants as host_call;
ghost use Rattle.isa_fields.specs.Fields.{rs1_field};
ghost use Rattle.scope.specs.Record.{value_of, applied};
ghost use Rattle.scope.specs.Classes.{arguments_of, class_of, class_effect};
ghost use Rattle.scope.specs.GuestPageFault.{page_fault_of};
ghost use Rattle.scope.specs.Ecalls.{ecall_effect};
ghost use Rattle.scope.specs.VirtualInstruction.{virtual_effect};
ghost use Rattle.scope.specs.Calls.{called_of};
ghost use Rattle.in_place_record.specs.Steps.{Laid, trap_leaves};
ghost use Rattle.in_place_record.specs.View.{view_of};
ghost use Rattle.in_place_start.specs.Words.{trap_words};

use decide_record::Ecall;
use in_place_record::{ReplyWord, WaitingKind};
use scope::{Access, Class, Trap};

// The trap of five words, read with no record in sight. No From: a Trap is scope's, which holds no code.
pub fn trap_of(t: &[u64; 5]) -> Trap
    ensures { result ≡ trap_words t.now }
{
    Trap {
        scause: t[0],
        stval: t[1],
        htval: t[2],
        htinst: t[3],
        room: t[4],
    }
}

// Starts a trap, where nothing waits.
pub fn start(r: &mut [u64; 58], out: &mut [u64; 8], t: Trap) -> u64
    ensures { Laid (trap_leaves r.old) out.old (called_of (view_of r.old) (host_call.Start t)) r.new out.new result }
{
    if decide_record::is_idle(in_place_read::waiting(r)) {
        return trapped(r, out, t);
    }
    ReplyWord::BadState as u64
}

// Each class at one place.
fn trapped(r: &mut [u64; 58], out: &mut [u64; 8], t: Trap) -> u64
    ensures { Laid (trap_leaves r.old) out.old (applied (view_of r.old) (class_effect (class_of t.scause) (view_of r.old).x (view_of r.old).csrs t)) r.new out.new result }
{
    match decide_class::class_of(t.scause) {
        Class::Ecall => ecall(r, out, t.room),
        Class::VirtualInstruction => virtual_inst(r, out, t.stval),
        Class::PageFault(access) => page_fault(r, out, t, access),
        Class::Interrupt => {
            out[0] = t.scause;
            r[in_place_record::KIND] = WaitingKind::Idle as u64;
            ReplyWord::ExternalInterrupt as u64
        }
        Class::NotHandled => {
            r[in_place_record::KIND] = WaitingKind::Idle as u64;
            ReplyWord::Unsupported as u64
        }
        Class::Unknown => {
            r[in_place_record::KIND] = WaitingKind::Idle as u64;
            ReplyWord::InvalidTrap as u64
        }
    }
}

fn ecall(r: &mut [u64; 58], out: &mut [u64; 8], room: u64) -> u64
    ensures { Laid (trap_leaves r.old) out.old (applied (view_of r.old) (ecall_effect (view_of r.old).csrs (get_or (view_of r.old).x 17 0) (get_or (view_of r.old).x 16 0) (arguments_of (view_of r.old).x) room)) r.new out.new result }
{
    let d = decide_ecall::decide(Ecall::of(r), room);
    in_place_ecall::do_call(r, out, d)
}

fn virtual_inst(r: &mut [u64; 58], out: &mut [u64; 8], stval: u64) -> u64
    ensures { Laid (trap_leaves r.old) out.old (applied (view_of r.old) (virtual_effect (view_of r.old).csrs stval (value_of (view_of r.old).x (rs1_field (stval % 2 ^ 32))))) r.new out.new result }
{
    let rs1 = decide_record::register(r, isa_fields::rs1(stval % 0x1_0000_0000));
    let d = decide_virtual_inst::decide_stval(stval, r[in_place_record::VSTIMECMP], rs1);
    in_place_classes::do_csr(r, out, d)
}

fn page_fault(r: &mut [u64; 58], out: &mut [u64; 8], t: Trap, access: Access) -> u64
    ensures { Laid (trap_leaves r.old) out.old (applied (view_of r.old) (page_fault_of (view_of r.old).x (view_of r.old).csrs t access)) r.new out.new result }
{
    let at = isa_registers::guest_page_fault_addr(t.htval, t.stval);
    in_place_classes::do_mmio(r, out, at, access, isa_decoder::from_htinst(t.htinst))
}
