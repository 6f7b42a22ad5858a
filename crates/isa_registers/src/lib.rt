// Values of hypervisor CSRs: the two delegation masks, hgatp, the address behind a guest page fault, single bits.
#![tactic(auto)]

ghost use Rattle.std.specs.Prelude.{◌≡◌};
ghost use Rattle.isa_registers.specs.Values.{delegated_exceptions, delegated_interrupts, guest_page_fault_addr, hgatp_of};
ghost use Rattle.isa_registers.specs.Bits.{sie_of, spvp_of, with_bits};

use isa_types::GuestPhysAddr;

// hgatp from a translation mode and the address of the root page table.
#[tactic(auto, unfolding(crate::specs::Values::hgatp_of))]
pub fn hgatp_value(mode: u64, root: u64) -> u64
    ensures { result ≡ hgatp_of mode root }
{
    mode % 16 * 0x1000_0000_0000_0000 + root / 4096 % 0x1000_0000_0000
}

// The guest physical address of a guest page fault.
#[tactic(auto, unfolding(crate::specs::Values::guest_page_fault_addr))]
pub fn guest_page_fault_addr(htval: u64, stval: u64) -> GuestPhysAddr
    ensures { result ≡ guest_page_fault_addr htval stval }
{
    GuestPhysAddr((htval % 0x4000_0000_0000_0000 * 4) | (stval % 4))
}

// hedeleg: the exceptions that go straight to the guest. A function and no constant, since a constant promises nothing.
#[tactic(auto, unfolding(crate::specs::Values::delegated_exceptions))]
pub fn delegated_exception_bits() -> u64
    ensures { result ≡ delegated_exceptions }
{
    0xb10d
}

// hideleg: the interrupts that go straight to the guest.
#[tactic(auto, unfolding(crate::specs::Values::delegated_interrupts))]
pub fn delegated_interrupt_bits() -> u64
    ensures { result ≡ delegated_interrupts }
{
    0x444
}

// hstatus.SPVP: whether the guest ran in supervisor mode. (This and sie are a bit each, by its own definition: one line is no plainer as a
// parameter.)
#[tactic(auto, unfolding(crate::specs::Bits::spvp_of))]
pub fn spvp(hstatus: u64) -> bool
    ensures { result ≡ spvp_of hstatus }
{
    hstatus / 256 % 2 == 1
}

// vsstatus.SIE: whether the guest takes interrupts.
#[tactic(auto, unfolding(crate::specs::Bits::sie_of))]
pub fn sie(vsstatus: u64) -> bool
    ensures { result ≡ sie_of vsstatus }
{
    vsstatus / 2 % 2 == 1
}

// The number with the bits of the mask set or cleared.
#[tactic(auto, unfolding(crate::specs::Bits::with_bits))]
pub fn with_bits(n: u64, mask: u64, on: bool) -> u64
    ensures { result ≡ with_bits n mask on }
{
    if on {
        return n | mask;
    }
    n & !mask
}

// The same where nothing foretells `on`. The bits are cleared first, so that what is chosen is the mask or 0: on rv64gc, which has no
// conditional move, that is an AND, and a choice of two numbers is a jump.
#[tactic(auto, unfolding(crate::specs::Bits::with_bits))]
pub fn with_bits_straight(n: u64, mask: u64, on: bool) -> u64
    ensures { result ≡ with_bits n mask on }
{
    (n & !mask) | isa_types::select(on, mask, 0)
}
