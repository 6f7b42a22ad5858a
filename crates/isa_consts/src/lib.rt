// The numbers of the RISC-V privileged architecture and of SBI that the handler goes by, one place for each.
// specs/ has the numbers that definitions go by; every function that uses a constant here is proved against those.
#![tactic(auto)]

ghost use Rattle.std.specs.Prelude.{◌≡◌};
ghost use Rattle.isa_consts.specs.Traps.{known_cause, known_exception, known_interrupt, supervisor_external};

// Traps: scause and interrupt vectors.

// The bit of scause that tells an interrupt from an exception.
pub const INTC_IRQ_BASE: u64 = 0x8000_0000_0000_0000;
// Supervisor external interrupt, without that bit.
pub const S_EXT_CODE: u64 = 9;

pub const S_SOFT: u64 = INTC_IRQ_BASE + 1;

pub const S_TIMER: u64 = INTC_IRQ_BASE + 5;

pub const S_EXT: u64 = INTC_IRQ_BASE + S_EXT_CODE;
// The last interrupt code that is known: supervisor guest external.
pub const LAST_INTERRUPT: u64 = 12;

pub const INST_ADDR_MISALIGN: u64 = 0;

pub const INST_ACCESS_FAULT: u64 = 1;

pub const ENV_CALL_FROM_VS: u64 = 10;

pub const INST_PAGE_FAULT: u64 = 12;

pub const LOAD_PAGE_FAULT: u64 = 13;

pub const STORE_PAGE_FAULT: u64 = 15;

pub const INST_GUEST_PAGE_FAULT: u64 = 20;

pub const LOAD_GUEST_PAGE_FAULT: u64 = 21;

pub const VIRTUAL_INST: u64 = 22;

pub const STORE_GUEST_PAGE_FAULT: u64 = 23;

// CSR fields, instruction words and the console's bound.

// Bits of hvip: software, timer and external interrupt pending for the guest.
pub const VSSIP: u64 = 0x4;

pub const VSTIP: u64 = 0x40;

pub const VSEIP: u64 = 0x400;
// What setup leaves in sstatus (FS initial, SPP), hstatus (VSXL 64, SPVP, SPV) and hie (the three bits above).
pub const SETUP_SSTATUS: u64 = 0x2100;

pub const SETUP_HSTATUS: u64 = 0x2_0000_0180;

pub const SETUP_HIE: u64 = 0x444;
// No deadline.
pub const NO_TIMER: u64 = 0xffff_ffff_ffff_ffff;
// The opcode of CSR instructions, and the CSR that a guest may reach by one.
pub const SYSTEM_OPCODE: u64 = 0x73;

pub const CSR_STIMECMP: u64 = 0x14d;
// The most bytes that one console call moves.
pub const CONSOLE_ROOM: u64 = 4096;

// SBI: extensions, functions, results.

pub const LEGACY_SET_TIMER: u64 = 0;

pub const LEGACY_CONSOLE_PUTCHAR: u64 = 1;

pub const LEGACY_CONSOLE_GETCHAR: u64 = 2;

pub const LEGACY_CLEAR_IPI: u64 = 3;

pub const LEGACY_SEND_IPI: u64 = 4;

pub const LEGACY_REMOTE_FENCE_I: u64 = 5;

pub const LEGACY_REMOTE_SFENCE_VMA: u64 = 6;

pub const LEGACY_REMOTE_SFENCE_VMA_ASID: u64 = 7;

pub const LEGACY_SHUTDOWN: u64 = 8;

pub const EID_TIME: u64 = 0x5449_4D45;

pub const FID_SET_TIMER: u64 = 0;

pub const EID_SPI: u64 = 0x73_5049;

pub const FID_SEND_IPI: u64 = 0;

pub const EID_HSM: u64 = 0x48_534D;

pub const FID_HART_START: u64 = 0;

pub const FID_HART_STOP: u64 = 1;

pub const FID_HART_SUSPEND: u64 = 3;
// Hypercalls: "HVC", the hypervisor's own.
pub const EID_HVC: u64 = 0x48_5643;

pub const EID_SRST: u64 = 0x5352_5354;

pub const FID_SYSTEM_RESET: u64 = 0;

pub const RESET_TYPE_SHUTDOWN: u64 = 0;

pub const EID_DBCN: u64 = 0x4442_434E;

pub const FID_CONSOLE_WRITE: u64 = 0;

pub const FID_CONSOLE_READ: u64 = 1;

pub const FID_CONSOLE_WRITE_BYTE: u64 = 2;

pub const EID_RFNC: u64 = 0x5246_4E43;

pub const EID_PMU: u64 = 0x50_4D55;

// The bytes of a hart mask in guest memory.
pub const HART_MASK_BYTES: u64 = 8;

pub const RET_SUCCESS: u64 = 0;

pub const RET_ERR_FAILED: u64 = 0xffff_ffff_ffff_ffff;

pub const RET_ERR_NOT_SUPPORTED: u64 = 0xffff_ffff_ffff_fffe;

pub const RET_ERR_INVALID_PARAM: u64 = 0xffff_ffff_ffff_fffd;

// Whether a vector is the supervisor external interrupt, with or without the interrupt bit.
#[tactic(auto, unfolding(crate::specs::Traps::supervisor_external))]
pub fn is_supervisor_external(vector: u64) -> bool
    ensures { result ≡ supervisor_external vector }
{
    vector == S_EXT_CODE || vector == S_EXT
}

// Whether scause is one of the causes that document 01 knows.
#[tactic(auto, unfolding(crate::specs::Traps::known_cause))]
pub fn is_known_cause(scause: u64) -> bool
    ensures { result ≡ known_cause scause }
{
    if scause < INTC_IRQ_BASE {
        return is_known_exception(scause);
    }
    is_known_interrupt(scause - INTC_IRQ_BASE)
}

// The codes of exceptions that are known and not handled.
#[tactic(auto, unfolding(crate::specs::Traps::known_exception))]
fn is_known_exception(code: u64) -> bool
    ensures { result ≡ known_exception code }
{
    matches!(
        code,
        0..=9 | 11 | INST_PAGE_FAULT | LOAD_PAGE_FAULT | STORE_PAGE_FAULT | INST_GUEST_PAGE_FAULT
    )
}

#[tactic(auto, unfolding(crate::specs::Traps::known_interrupt))]
fn is_known_interrupt(code: u64) -> bool
    ensures { result ≡ known_interrupt code }
{
    code <= LAST_INTERRUPT
}
