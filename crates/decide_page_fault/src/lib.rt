// A guest page fault: a load or store of a device, or a page that the host has to map.
#![tactic(auto)]

ghost use Rattle.std.specs.Prelude.{◌≡◌};
ghost use Rattle.scope.specs.GuestPageFault.{fault_of, load_under, store_under};

use isa_decoder::{Decoded, Trapped};
use isa_types::Width;
use scope::{Access, Fault};

// What the instruction does under a read or a write, with the content of the register that a store moves.
#[tactic(auto, unfolding(scope::specs::GuestPageFault::fault_of))]
pub fn decide(access: Access, t: Trapped, source: u64) -> Fault
    ensures { result ≡ fault_of access t source }
{
    match t {
        Trapped::Absent => Fault::Fetch,
        Trapped::Pseudo => Fault::Walk,
        Trapped::Unfit => Fault::Unfit,
        Trapped::Instruction { op, length } => match op {
            Decoded::Load { width, signed, rd } => load(access, width, signed, rd, length),
            Decoded::Store { width, .. } => store(access, width, source, length),
            Decoded::Neither => Fault::Nested,
        },
    }
}

// A load is taken under a read alone.
#[tactic(auto, unfolding(scope::specs::GuestPageFault::load_under))]
fn load(access: Access, width: Width, signed: bool, rd: usize, length: u64) -> Fault
    ensures { result ≡ load_under access width signed rd length }
{
    match access {
        Access::Read => Fault::Load {
            width,
            signed,
            rd,
            length,
        },
        Access::Write | Access::Execute => Fault::Nested,
    }
}

// A store is taken under a write alone.
#[tactic(auto, unfolding(scope::specs::GuestPageFault::store_under))]
fn store(access: Access, width: Width, source: u64, length: u64) -> Fault
    ensures { result ≡ store_under access width source length }
{
    match access {
        Access::Write => Fault::Store {
            width,
            data: isa_extension::cut(width, source),
            length,
        },
        Access::Read | Access::Execute => Fault::Nested,
    }
}
