// What a decision gives: an enum for each class of trap. Code shares these; specs/ says what each does.
use crate::machine::Event;
use crate::traps::{Access, IpiRequest};
use isa_types::{GuestPhysAddr, GuestVirtAddr, Width};

// What a trap is handled as, by scause.
#[derive(Clone, Copy)]
pub enum Class {
    Ecall,
    VirtualInstruction,
    PageFault(Access),
    Interrupt,
    // A code that is known and not handled.
    NotHandled,
    Unknown,
}

// What an SBI call does. Each case is a row of document 01's list.
#[derive(Clone, Copy)]
pub enum SbiCall {
    // a0 and a1 are these, sepc moves on.
    Returns(u64, u64),
    // sepc moves on and no register is written.
    Moves,
    LegacyTimer(u64),
    SetTimer(u64),
    ClearIpi,
    PutChar(u64),
    GetChar,
    CopyMask(GuestVirtAddr),
    SendIpi(IpiRequest),
    CpuUp(u64, GuestPhysAddr, u64),
    CpuDown,
    Halt,
    SystemDown,
    Hypercall,
    CopyIn(GuestPhysAddr, u64),
    ReadConsole(GuestPhysAddr, u64),
    PutByte(u64),
    Forward(Event),
}

// What a virtual instruction, on stimecmp or not, does.
#[derive(Clone, Copy)]
pub enum Stimecmp {
    // The trap ends in an error and is counted.
    Illegal,
    // The word has to be fetched.
    Fetch,
    // rd gets the old timer, and the timer is this.
    Write { rd: usize, timer: u64 },
}

// What a guest page fault does.
#[derive(Clone, Copy)]
pub enum Fault {
    // The word has to be fetched.
    Fetch,
    // An access of the page-table walk.
    Walk,
    // No length that is taken.
    Unfit,
    // The host has to map the page.
    Nested,
    Load {
        width: Width,
        signed: bool,
        rd: usize,
        length: u64,
    },
    Store {
        width: Width,
        data: u64,
        length: u64,
    },
}

// What a failed fetch does.
#[derive(Clone, Copy)]
pub enum Missed {
    // The guest takes the exception itself.
    Inject { cause: u64, addr: GuestVirtAddr },
    // The host has to map the page.
    Nested(GuestPhysAddr),
    // The trap ends in an error.
    Unhandled,
}

// What the answer to an ecall's ask does.
#[derive(Clone, Copy)]
pub enum Answered {
    // sepc moves on and no register is written.
    Moves,
    // a0 is this, sepc moves on.
    Gives(u64),
    // a0 and a1 are these, sepc moves on.
    Returns(u64, u64),
    SendIpi(IpiRequest),
    Print(u64),
    CopyOut(GuestPhysAddr, u64),
}

// What the host made of a request.
#[derive(Clone, Copy)]
pub enum IpiCompletion {
    // Every hart that the mask names takes the interrupt.
    Success,
    // The mask names a hart that the guest doesn't have.
    InvalidParameter,
    // The request was sound and delivery failed.
    Failed,
}
