// The effects of a virtual instruction, a guest page fault and a failed fetch, each once it is decided, and of a load's completion.
#![tactic(auto)]

ghost use Rattle.std.specs.Prelude.{◌≡◌};
ghost use Rattle.scope.specs.GuestPageFault.{completed_of, fault_effect};
ghost use Rattle.scope.specs.VirtualInstruction.{ask_fetch_of, missed_effect, stimecmp_effect};

use isa_types::{GuestPhysAddr, GuestVirtAddr};
use scope::{
    Access, Ask, Csrs, Effect, Error, Event, Exit, Fault, Missed, Stimecmp, Waiting, Writes,
};

// A load's number arrives: cut, extended, written.
#[tactic(auto, unfolding(scope::specs::GuestPageFault::completed_of))]
pub fn complete(c: Csrs, w: Waiting, n: u64) -> Effect
    ensures { result ≡ completed_of c w n }
{
    let Waiting::Load { rd, width, signed } = w else {
        return decide_effects::refused(c, w, Error::BadState);
    };
    let number = isa_extension::extend(width, signed, n);
    decide_effects::done(c, Writes::One(rd, number), Waiting::Idle)
}

// Asks for the instruction at sepc, with the guest's rights.
#[tactic(auto, unfolding(scope::specs::VirtualInstruction::ask_fetch_of))]
pub fn ask_fetch(c: Csrs, waiting: Waiting) -> Effect
    ensures { result ≡ ask_fetch_of c waiting }
{
    let at = GuestVirtAddr(c.guest.sepc);
    let supervisor = isa_registers::spvp(c.guest.hstatus);
    decide_effects::asking(c, Event::Quiet, waiting, Ask::Fetch { at, supervisor })
}

// The effect of a failed fetch.
#[tactic(auto, unfolding(scope::specs::VirtualInstruction::missed_effect))]
pub fn missed(c: Csrs, m: Missed) -> Effect
    ensures { result ≡ missed_effect c m }
{
    match m {
        Missed::Inject { cause, addr } => {
            let csrs = decide_fetch::inject(c, cause, addr);
            decide_effects::finished(csrs, Event::Quiet, Writes::Keep, Exit::Nothing)
        }
        Missed::Nested(addr) => {
            let exit = Exit::NestedPageFault {
                addr,
                access: Access::Execute,
            };
            decide_effects::finished(c, Event::Quiet, Writes::Keep, exit)
        }
        Missed::Unhandled => decide_effects::failed(c, Event::Quiet, Error::GuestMemoryFault),
    }
}

// The effect of a virtual instruction.
#[tactic(auto, unfolding(scope::specs::VirtualInstruction::stimecmp_effect))]
pub fn csr(c: Csrs, d: Stimecmp) -> Effect
    ensures { result ≡ stimecmp_effect c d }
{
    match d {
        Stimecmp::Illegal => decide_effects::failed(c, Event::IllegalInsn, Error::Unsupported),
        Stimecmp::Fetch => ask_fetch(c, Waiting::FetchCsr),
        Stimecmp::Write { rd, timer } => {
            let armed = decide_record::with_timer(c, timer);
            decide_effects::finished(
                decide_record::advance(armed, 4),
                Event::Quiet,
                Writes::One(rd, c.vs.vstimecmp),
                Exit::Nothing,
            )
        }
    }
}

// The effect of a guest page fault.
#[tactic(auto, unfolding(scope::specs::GuestPageFault::fault_effect, scope::specs::Refusals::finished_of))]
pub fn fault(c: Csrs, at: GuestPhysAddr, access: Access, d: Fault) -> Effect
    ensures { result ≡ fault_effect c at access d }
{
    match d {
        Fault::Fetch => ask_fetch(c, Waiting::FetchFault { at, access }),
        Fault::Walk => decide_effects::failed(c, Event::Quiet, Error::Unsupported),
        Fault::Unfit => decide_effects::failed(c, Event::Quiet, Error::DecodeFailed),
        Fault::Nested => decide_effects::finished(
            c,
            Event::Quiet,
            Writes::Keep,
            Exit::NestedPageFault { addr: at, access },
        ),
        Fault::Load {
            width,
            signed,
            rd,
            length,
        } => Effect {
            waiting: Waiting::Load { rd, width, signed },
            ..decide_effects::finished(
                decide_record::advance(c, length),
                Event::Quiet,
                Writes::Keep,
                Exit::MmioRead { addr: at, width },
            )
        },
        Fault::Store {
            width,
            data,
            length,
        } => decide_effects::finished(
            decide_record::advance(c, length),
            Event::Quiet,
            Writes::Keep,
            Exit::MmioWrite {
                addr: at,
                width,
                data,
            },
        ),
    }
}
