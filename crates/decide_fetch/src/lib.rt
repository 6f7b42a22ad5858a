// What a failed fetch of the guest's instruction does, and injection into the guest.
#![tactic(auto)]

ghost use Rattle.std.specs.Prelude.{◌≡◌};
ghost use Rattle.scope.specs.VirtualInstruction.{injected_of, missed_of, trap_status_of};

use isa_types::GuestVirtAddr;
use scope::{Access, Csrs, Fetch, GuestCsrs, Missed, VsCsrs};

// What the fault in a fetch answer does. A word is no fault; callers take it out before.
#[tactic(auto, unfolding(scope::specs::VirtualInstruction::missed_of))]
pub fn decide(f: Fetch) -> Missed
    ensures { result ≡ missed_of f }
{
    match f {
        Fetch::Page(addr) => Missed::Inject {
            cause: isa_consts::INST_PAGE_FAULT,
            addr,
        },
        Fetch::Access(addr) => Missed::Inject {
            cause: isa_consts::INST_ACCESS_FAULT,
            addr,
        },
        Fetch::Misaligned(addr) => Missed::Inject {
            cause: isa_consts::INST_ADDR_MISALIGN,
            addr,
        },
        Fetch::GuestPage(addr) => Missed::Nested(addr),
        Fetch::Word(_) | Fetch::Unhandled => Missed::Unhandled,
    }
}

// The guest's CSRs after an exception that it takes in supervisor mode: sstatus.SPP says so to the return.
#[tactic(auto, unfolding(scope::specs::VirtualInstruction::injected_of))]
pub fn inject(c: Csrs, cause: u64, addr: GuestVirtAddr) -> Csrs
    ensures { result ≡ injected_of c cause addr }
{
    let sstatus = isa_registers::with_bits(c.guest.sstatus, 0x100, true);
    let vsstatus = trap_status(c.vs.vsstatus, c.guest.hstatus);
    let guest = GuestCsrs {
        sepc: c.vs.vstvec / 4 * 4,
        sstatus,
        ..c.guest
    };
    let vs = VsCsrs {
        vsstatus,
        vsepc: c.guest.sepc,
        vscause: cause,
        vstval: addr.0,
        ..c.vs
    };
    Csrs { guest, vs, ..c }
}

// vsstatus as the hardware leaves it on a trap into the guest's supervisor mode.
#[tactic(auto, unfolding(scope::specs::VirtualInstruction::trap_status_of))]
fn trap_status(vsstatus: u64, hstatus: u64) -> u64
    ensures { result ≡ trap_status_of vsstatus hstatus }
{
    let kept = isa_registers::with_bits(vsstatus, 0x20, isa_registers::sie(vsstatus));
    let masked = isa_registers::with_bits(kept, 0x2, false);
    isa_registers::with_bits_straight(masked, 0x100, isa_registers::spvp(hstatus))
}
