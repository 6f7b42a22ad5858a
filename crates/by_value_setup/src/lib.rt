// What the host sets up before a guest runs: the record, its CSRs, where it starts, its page table.
#![tactic(auto, unfolding(scope::specs::Calls::called_of, scope::specs::Calls::base_of, scope::specs::Calls::effect_of))]

ghost use Rattle.std.specs.Prelude.{◌≡◌};
ghost use Rattle.scope.specs.declared.hosts.HostCall.TheVariants as host_call;
ghost use Rattle.scope.specs.Calls.{new_of, called_of};

use isa_types::GuestPhysAddr;
use scope::{Csrs, Outcome, Vcpu, Waiting};

// A record of zeros but for what a guest finds at its start: a0 is its hart, a1 where the device tree lies. The numbers of a call, here and
// below, come one by one, as C gives them.
#[tactic(auto, unfolding(scope::specs::Calls::new_of))]
pub fn new(hart_id: u64, dtb_addr: u64) -> Vcpu
    ensures { result ≡ new_of hart_id dtb_addr }
{
    let mut x = [0u64; 32];
    x[10] = hart_id;
    x[11] = dtb_addr;
    Vcpu {
        x,
        csrs: Csrs::default(),
        counts: [0; 9],
        waiting: Waiting::Idle,
    }
}

// The state that a guest starts with.
pub fn setup(v: Vcpu) -> Outcome
    ensures { result ≡ called_of v host_call.Setup }
{
    let e = decide_host::setup_effect(v.csrs, v.waiting);
    by_value_apply::unless_asking(v, e)
}

// Where the guest starts.
pub fn set_entry(v: Vcpu, entry: GuestPhysAddr) -> Outcome
    ensures { result ≡ called_of v (host_call.SetEntry entry) }
{
    let e = decide_host::entry_effect(v.csrs, v.waiting, entry);
    by_value_apply::unless_asking(v, e)
}

// Sets the guest-stage page table: 3 levels with mode 8, or 4 with mode 9, and a root at a multiple of 16 KiB.
pub fn set_nested_page_table(v: Vcpu, levels: u64, mode: u64, root: u64) -> Outcome
    ensures { result ≡ called_of v (host_call.SetNestedPageTable levels mode root) }
{
    let e = decide_host::paging_effect(v.csrs, v.waiting, levels, mode, root);
    by_value_apply::unless_asking(v, e)
}
