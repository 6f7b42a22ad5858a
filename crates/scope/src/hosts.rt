// The calls on a record as one type, and a row of posts. An enum holds no slice, so the row is no case of the type: docs/DECISIONS.md.
use crate::decided::IpiCompletion;
use crate::traps::{Answer, IpiAbi, Trap};
use isa_types::GuestPhysAddr;

// A call on a vCPU record, with what it is given. A new record is made where an old one may lie; the bytes to print are
// told by the length of the buffer that is lent.
#[derive(Clone, Copy)]
pub enum HostCall {
    New {
        hart_id: u64,
        dtb_addr: u64,
    },
    Setup,
    SetEntry(GuestPhysAddr),
    GetGpr {
        index: usize,
    },
    SetGpr {
        index: usize,
        value: u64,
    },
    SetReturnValue {
        value: u64,
    },
    SetNestedPageTable {
        levels: u64,
        mode: u64,
        root: u64,
    },
    SetPending {
        vector: u64,
        level: bool,
    },
    LatchHvip {
        bits: u64,
    },
    CompleteIpi {
        abi: IpiAbi,
        completion: IpiCompletion,
    },
    Start(Trap),
    Answer(Answer),
    CompleteLoad {
        number: u64,
    },
    ToPrint {
        length: u64,
    },
}

// One of a row of posts: an interrupt's vector, and its level: 0 clears, any other sets. Numbers, since C lends the row. 02, W4.
#[repr(C)]
#[derive(Clone, Copy)]
pub struct Post {
    pub vector: u64,
    pub level: u64,
}

// What a row of posts gives: how many were applied, and the number of the refusal that stopped it, or 0; numbers, since C reads them.
#[repr(C)]
#[derive(Clone, Copy)]
pub struct Posted {
    pub applied: u64,
    pub refusal: u64,
}
