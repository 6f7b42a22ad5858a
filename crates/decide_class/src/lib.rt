// What a trap is handled as, by scause. 01, Classes.
#![tactic(auto)]

ghost use Rattle.std.specs.Prelude.{◌≡◌};
ghost use Rattle.scope.specs.Classes.{class_of};

use scope::{Access, Class};

// The class of a trap.
#[tactic(auto, unfolding(scope::specs::Classes::class_of))]
pub fn class_of(scause: u64) -> Class
    ensures { result ≡ class_of scause }
{
    match scause {
        isa_consts::ENV_CALL_FROM_VS => Class::Ecall,
        isa_consts::VIRTUAL_INST => Class::VirtualInstruction,
        isa_consts::LOAD_GUEST_PAGE_FAULT => Class::PageFault(Access::Read),
        isa_consts::STORE_GUEST_PAGE_FAULT => Class::PageFault(Access::Write),
        isa_consts::S_SOFT | isa_consts::S_TIMER | isa_consts::S_EXT => Class::Interrupt,
        _ if isa_consts::is_known_cause(scause) => Class::NotHandled,
        _ => Class::Unknown,
    }
}
