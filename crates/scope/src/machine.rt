// The vCPU record, and one effect on it. 01, The record.
use crate::hosts::Posted;
use crate::traps::{Access, Args, Reply};
use isa_types::{GuestPhysAddr, Width};

// What the guest resumes with.
#[derive(Clone, Copy, Default)]
pub struct GuestCsrs {
    pub sepc: u64,
    pub sstatus: u64,
    pub hstatus: u64,
}

// The guest's own supervisor CSRs.
#[derive(Clone, Copy, Default)]
pub struct VsCsrs {
    pub vsstatus: u64,
    pub vstvec: u64,
    pub vsepc: u64,
    pub vscause: u64,
    pub vstval: u64,
    pub vstimecmp: u64,
}

// The hypervisor's CSRs for this guest.
#[derive(Clone, Copy, Default)]
pub struct HsCsrs {
    pub hie: u64,
    pub hvip: u64,
    pub hgeie: u64,
    pub hgatp: u64,
}

#[derive(Clone, Copy, Default)]
pub struct Csrs {
    pub guest: GuestCsrs,
    pub vs: VsCsrs,
    pub hs: HsCsrs,
}

// The one ask or load that waits, with what its trap still needs. Idle is a case and no None: is_idle, waiting_ask and the theorems over
// them take it for one.
#[derive(Clone, Copy)]
pub enum Waiting {
    Idle,
    Load {
        rd: usize,
        width: Width,
        signed: bool,
    },
    // Ask 1, of a virtual instruction.
    FetchCsr,
    // Ask 1, of a guest page fault.
    FetchFault {
        at: GuestPhysAddr,
        access: Access,
    },
    // An ecall's ask.
    Ecall(EcallAsk),
}

// The ask of an ecall, with what its answer needs.
#[derive(Clone, Copy)]
pub enum EcallAsk {
    // Ask 2.
    CopyMask,
    // Ask 3: the bytes asked for.
    CopyIn { count: u64 },
    // Ask 4.
    Print { count: u64 },
    // Ask 5: the bytes asked for, and where they go.
    ReadConsole { count: u64, at: GuestPhysAddr },
    // Ask 6: the bytes that the console gave.
    CopyOut { count: u64 },
    // Ask 7, of legacy put character.
    PutChar,
    // Ask 7, of DBCN write byte.
    PutByte,
    // Ask 8.
    GetChar,
    // Ask 9.
    Forward,
}

#[derive(Clone, Copy)]
pub struct Vcpu {
    pub x: [u64; 32],
    pub csrs: Csrs,
    pub counts: [u64; 9],
    pub waiting: Waiting,
}

// What is counted, in the order of the nine counts. Quiet is a case and no None: event_number gives it 0.
#[derive(Clone, Copy)]
pub enum Event {
    Quiet,
    SetTimer,
    IllegalInsn,
    FenceI,
    SfenceVma,
    SfenceVmaAsid,
    HfenceGvmaVmid,
    HfenceGvma,
    HfenceVvmaAsid,
    HfenceVvma,
}

// The registers that a call writes: none, one, or a0 and a1.
#[derive(Clone, Copy)]
pub enum Writes {
    Keep,
    One(usize, u64),
    Pair(u64, u64),
}

#[derive(Clone, Copy)]
pub struct Effect {
    pub csrs: Csrs,
    pub event: Event,
    pub writes: Writes,
    pub waiting: Waiting,
    pub reply: Reply,
    pub args: Args,
}

// The whole outcome of a call. The array holds a hypercall's arguments and is all 0 beside any other reply.
#[derive(Clone, Copy)]
pub struct Outcome {
    pub vcpu: Vcpu,
    pub reply: Reply,
    pub args: [u64; 6],
}

// The whole outcome of a row of posts. 02, W4.
#[derive(Clone, Copy)]
pub struct RowOutcome {
    pub vcpu: Vcpu,
    pub posted: Posted,
}

// The record in words: the waiting part is a kind and three numbers, since C lays it out.
#[repr(C)]
#[derive(Clone, Copy)]
pub struct Record {
    pub x: [u64; 32],
    pub csrs: [u64; 13],
    pub counts: [u64; 9],
    pub waiting: [u64; 4],
}
