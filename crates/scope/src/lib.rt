// The definitions that every promise cites, by the chapters of document 01, and the types that they speak of. No code.
#![tactic(auto)]

pub mod decided;
pub mod hosts;
pub mod machine;
pub mod traps;

pub use decided::{Answered, Class, Fault, IpiCompletion, Missed, SbiCall, Stimecmp};
pub use hosts::{HostCall, Post, Posted};
pub use machine::{
    Csrs, EcallAsk, Effect, Event, GuestCsrs, HsCsrs, Outcome, Record, RowOutcome, Vcpu, VsCsrs,
    Waiting, Writes,
};
pub use traps::{Access, Answer, Args, Ask, Error, Exit, Fetch, IpiAbi, IpiRequest, Reply, Trap};
