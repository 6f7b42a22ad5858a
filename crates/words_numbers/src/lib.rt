// The numbers that 01 gives to exits, asks, answers, errors and events, and those that they carry. scope/specs/OneTrap.antt,
// Refusals.antt, Record.antt and Ecalls.antt define them.
#![tactic(auto)]

ghost use Rattle.std.specs.Prelude.{◌≡◌, ℕ};
ghost use Rattle.scope.specs.Ecalls.{completion_number};
ghost use Rattle.scope.specs.OneTrap.{answer_number, ask_number, exit_number, abi_number, access_number, width_bytes, ask_values, exit_values, flag_of};
ghost use Rattle.scope.specs.Record.{event_number};
ghost use Rattle.scope.specs.Refusals.{error_number};

pub mod from_number;

pub use from_number::FromNumber;
use isa_types::Width;
use scope::{Access, Answer, Ask, Error, Event, Exit, IpiAbi, IpiCompletion};

// A value that has a number. A trait of this crate and not From, since the types are scope's, which holds no code. A match in each impl, and no
// discriminants in those types: what a number is stands in specs alone.
pub trait Numbered {
    ghost number_of: { Self → ℕ };

    fn number(self) -> u64
        ensures { result ≡ number_of self };
}

impl Numbered for Exit {
    ghost number_of = { exit_number };

    #[tactic(auto, unfolding(scope::specs::OneTrap::exit_number))]
    fn number(self) -> u64 {
        match self {
            Exit::Nothing => 0,
            Exit::ExternalInterrupt { .. } => 1,
            Exit::SendIpi(_) => 2,
            Exit::CpuUp { .. } => 3,
            Exit::CpuDown { .. } => 4,
            Exit::Halt => 5,
            Exit::Hypercall { .. } => 6,
            Exit::SystemDown => 7,
            Exit::NestedPageFault { .. } => 8,
            Exit::MmioRead { .. } => 9,
            Exit::MmioWrite { .. } => 10,
        }
    }
}

// The number of the ask that an answer is to.
impl Numbered for Answer {
    ghost number_of = { answer_number };

    #[tactic(auto, unfolding(scope::specs::OneTrap::answer_number))]
    fn number(self) -> u64 {
        match self {
            Answer::Fetched(_) => 1,
            Answer::MaskCopied { .. } => 2,
            Answer::CopiedIn { .. } => 3,
            Answer::Printed { .. } => 4,
            Answer::ConsoleRead { .. } => 5,
            Answer::CopiedOut { .. } => 6,
            Answer::Emitted => 7,
            Answer::Char { .. } => 8,
            Answer::Forwarded { .. } => 9,
            Answer::Other => 10,
        }
    }
}

impl Numbered for Error {
    ghost number_of = { error_number };

    #[tactic(auto, unfolding(scope::specs::Refusals::error_number))]
    fn number(self) -> u64 {
        match self {
            Error::InvalidInput => 1,
            Error::BadState => 2,
            Error::Unsupported => 3,
            Error::InvalidTrap => 4,
            Error::DecodeFailed => 5,
            Error::GuestMemoryFault => 6,
            Error::WrongAnswer => 7,
        }
    }
}

impl Numbered for Ask {
    ghost number_of = { ask_number };

    #[tactic(auto, unfolding(scope::specs::OneTrap::ask_number))]
    fn number(self) -> u64 {
        match self {
            Ask::Fetch { .. } => 1,
            Ask::CopyMask { .. } => 2,
            Ask::CopyIn { .. } => 3,
            Ask::Print { .. } => 4,
            Ask::ReadConsole { .. } => 5,
            Ask::CopyOut { .. } => 6,
            Ask::Emit { .. } => 7,
            Ask::GetChar => 8,
            Ask::Forward { .. } => 9,
        }
    }
}

// An event's place among the counts, from 1; 0 is no event.
impl Numbered for Event {
    ghost number_of = { event_number };

    #[tactic(auto, unfolding(scope::specs::Record::event_number))]
    fn number(self) -> u64 {
        match self {
            Event::Quiet => 0,
            Event::SetTimer => 1,
            Event::IllegalInsn => 2,
            Event::FenceI => 3,
            Event::SfenceVma => 4,
            Event::SfenceVmaAsid => 5,
            Event::HfenceGvmaVmid => 6,
            Event::HfenceGvma => 7,
            Event::HfenceVvmaAsid => 8,
            Event::HfenceVvma => 9,
        }
    }
}

// The bytes that a width moves.
impl Numbered for Width {
    ghost number_of = { width_bytes };

    #[tactic(auto, unfolding(scope::specs::OneTrap::width_bytes))]
    fn number(self) -> u64 {
        match self {
            Width::Byte => 1,
            Width::Half => 2,
            Width::Word => 4,
            Width::Double => 8,
        }
    }
}

// The flag of an access.
impl Numbered for Access {
    ghost number_of = { access_number };

    #[tactic(auto, unfolding(scope::specs::OneTrap::access_number))]
    fn number(self) -> u64 {
        match self {
            Access::Read => 1,
            Access::Write => 2,
            Access::Execute => 4,
        }
    }
}

// The calling convention's number.
impl Numbered for IpiAbi {
    ghost number_of = { abi_number };

    #[tactic(auto, unfolding(scope::specs::OneTrap::abi_number))]
    fn number(self) -> u64 {
        match self {
            IpiAbi::Legacy => 0,
            IpiAbi::SbiV02 => 1,
        }
    }
}

// SBI's error code: none, -3 or -1.
impl Numbered for IpiCompletion {
    ghost number_of = { completion_number };

    #[tactic(auto, unfolding(scope::specs::Ecalls::completion_number))]
    fn number(self) -> u64 {
        match self {
            IpiCompletion::Success => isa_consts::RET_SUCCESS,
            IpiCompletion::InvalidParameter => isa_consts::RET_ERR_INVALID_PARAM,
            IpiCompletion::Failed => isa_consts::RET_ERR_FAILED,
        }
    }
}

// A test as a word: yes 1, no 0.
impl Numbered for bool {
    ghost number_of = { flag_of };

    #[tactic(auto, unfolding(scope::specs::OneTrap::flag_of))]
    fn number(self) -> u64 {
        u64::from(self)
    }
}

// The numbers that an exit carries, in order, and 0 for each that it lacks.
#[tactic(auto, unfolding(scope::specs::OneTrap::exit_values))]
pub fn exit_values(e: Exit) -> [u64; 3]
    ensures { result ≡ exit_values e }
{
    match e {
        Exit::Nothing => [0, 0, 0],
        Exit::ExternalInterrupt { vector } => [vector, 0, 0],
        Exit::SendIpi(r) => [r.mask, r.base, r.abi.number()],
        Exit::CpuUp {
            target_cpu,
            entry_point,
            arg,
        } => [target_cpu, entry_point.0, arg],
        Exit::CpuDown { state } => [state, 0, 0],
        Exit::Halt => [0, 0, 0],
        Exit::Hypercall { nr } => [nr, 0, 0],
        Exit::SystemDown => [0, 0, 0],
        Exit::NestedPageFault { addr, access } => [addr.0, access.number(), 0],
        Exit::MmioRead { addr, width } => [addr.0, width.number(), 0],
        Exit::MmioWrite { addr, width, data } => [addr.0, width.number(), data],
    }
}

// The numbers that an ask carries, in order, and 0 for each that it lacks.
#[tactic(auto, unfolding(scope::specs::OneTrap::ask_values))]
pub fn ask_values(a: Ask) -> [u64; 8]
    ensures { result ≡ ask_values a }
{
    match a {
        Ask::Fetch { at, supervisor } => [at.0, supervisor.number(), 0, 0, 0, 0, 0, 0],
        Ask::CopyMask { at } => [at.0, 0, 0, 0, 0, 0, 0, 0],
        Ask::CopyIn { at, count } | Ask::CopyOut { at, count } => {
            [at.0, count, 0, 0, 0, 0, 0, 0]
        }
        Ask::Print { count } | Ask::ReadConsole { count } => [count, 0, 0, 0, 0, 0, 0, 0],
        Ask::Emit { number } => [number, 0, 0, 0, 0, 0, 0, 0],
        Ask::GetChar => [0, 0, 0, 0, 0, 0, 0, 0],
        Ask::Forward { eid, fid, args } => [
            eid, fid, args.a0, args.a1, args.a2, args.a3, args.a4, args.a5,
        ],
    }
}
