// One trap: what the host hands in, is asked and is told. 01, One trap.
use isa_types::{GuestPhysAddr, GuestVirtAddr, Width};

// What a guest was doing when its memory access failed.
#[derive(Clone, Copy)]
pub enum Access {
    Read,
    Write,
    Execute,
}

// The calling convention that an IPI request came by.
#[derive(Clone, Copy)]
pub enum IpiAbi {
    Legacy,
    SbiV02,
}

// The harts that a guest wants to interrupt, as SBI's hart mask and its base.
#[derive(Clone, Copy)]
pub struct IpiRequest {
    pub mask: u64,
    pub base: u64,
    pub abi: IpiAbi,
}

// The arguments a0 to a5 of an ecall.
#[derive(Clone, Copy, Default)]
pub struct Args {
    pub a0: u64,
    pub a1: u64,
    pub a2: u64,
    pub a3: u64,
    pub a4: u64,
    pub a5: u64,
}

// What the host has to do after a trap.
#[derive(Clone, Copy)]
pub enum Exit {
    Nothing,
    ExternalInterrupt {
        vector: u64,
    },
    SendIpi(IpiRequest),
    CpuUp {
        target_cpu: u64,
        entry_point: GuestPhysAddr,
        arg: u64,
    },
    CpuDown {
        state: u64,
    },
    Halt,
    Hypercall {
        nr: u64,
    },
    SystemDown,
    NestedPageFault {
        addr: GuestPhysAddr,
        access: Access,
    },
    MmioRead {
        addr: GuestPhysAddr,
        width: Width,
    },
    MmioWrite {
        addr: GuestPhysAddr,
        width: Width,
        data: u64,
    },
}

// What the handler asks of the host in the middle of a trap.
#[derive(Clone, Copy)]
pub enum Ask {
    Fetch { at: GuestVirtAddr, supervisor: bool },
    CopyMask { at: GuestVirtAddr },
    CopyIn { at: GuestPhysAddr, count: u64 },
    Print { count: u64 },
    ReadConsole { count: u64 },
    CopyOut { at: GuestPhysAddr, count: u64 },
    Emit { number: u64 },
    GetChar,
    Forward { eid: u64, fid: u64, args: Args },
}

// What fetching a guest's instruction gave: its word, or why it could not be had. Six cases and no Result, since fetch_number numbers the
// six and missed_of, fetch_effect and the marked cases speak of them.
#[derive(Clone, Copy)]
pub enum Fetch {
    Word(u32),
    Page(GuestVirtAddr),
    Access(GuestVirtAddr),
    Misaligned(GuestVirtAddr),
    GuestPage(GuestPhysAddr),
    Unhandled,
}

// The host's answer to each kind of ask.
#[derive(Clone, Copy)]
pub enum Answer {
    Fetched(Fetch),
    // The bytes as a little-endian number.
    MaskCopied { count: u64, bytes: u64 },
    CopiedIn { count: u64 },
    Printed { error: u64, value: u64 },
    ConsoleRead { error: u64, value: u64 },
    CopiedOut { count: u64 },
    Emitted,
    Char { number: u64 },
    Forwarded { error: u64, value: u64 },
    // An answer whose number is no ask's: it fits none.
    Other,
}

// Why a call was refused (InvalidInput, BadState, WrongAnswer), or a trap ended with no exit (the others).
#[derive(Clone, Copy)]
pub enum Error {
    InvalidInput,
    BadState,
    Unsupported,
    InvalidTrap,
    DecodeFailed,
    GuestMemoryFault,
    WrongAnswer,
}

// What a call gives back beside the record. Five cases and no Result, since reply_kind numbers the five, and C reads the number.
#[derive(Clone, Copy)]
pub enum Reply {
    // The trap is finished.
    Exit(Exit),
    // The trap waits for the host's answer.
    Ask(Ask),
    // The call is done and gives nothing.
    Done,
    // The register that was read.
    Value(u64),
    // The call was refused, or the trap ended in an error.
    Error(Error),
}

// The numbers that the hardware leaves at a trap, and the console buffer's room.
#[derive(Clone, Copy)]
pub struct Trap {
    pub scause: u64,
    pub stval: u64,
    pub htval: u64,
    pub htinst: u64,
    pub room: u64,
}
