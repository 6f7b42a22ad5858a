// The guest's interrupts, raised and latched by the host, and the results of its IPI requests.
#![tactic(auto, unfolding(scope::specs::Calls::called_of, scope::specs::Calls::base_of, scope::specs::Calls::effect_of))]

ghost use Rattle.std.specs.Prelude.{true, ◌≡◌};
ghost use Rattle.scope.specs.declared.hosts.HostCall.TheVariants as host_call;
ghost use Rattle.scope.specs.Calls.{called_of};

use scope::{IpiAbi, IpiCompletion, Outcome, Vcpu};

// Sets or clears a pending interrupt of the guest, by the host's vector.
pub fn set_virtual_interrupt_pending(v: Vcpu, vector: u64, pending: bool) -> Outcome
    ensures { result ≡ called_of v (host_call.SetPending vector pending) }
{
    let e = decide_host::pending_effect(v.csrs, v.waiting, vector, pending);
    by_value_apply::unless_asking(v, e)
}

// Sets a pending interrupt.
pub fn inject_interrupt(v: Vcpu, vector: u64) -> Outcome
    ensures { result ≡ called_of v (host_call.SetPending vector true) }
{
    set_virtual_interrupt_pending(v, vector, true)
}

// The level of the guest's external interrupt line.
pub fn set_vseip_level(v: Vcpu, asserted: bool) -> Outcome
    ensures { result ≡ called_of v (host_call.SetPending 9 asserted) }
{
    set_virtual_interrupt_pending(v, isa_consts::S_EXT_CODE, asserted)
}

// Latches pending bits that the hardware raised.
pub fn latch_hvip(v: Vcpu, bits: u64) -> Outcome
    ensures { result ≡ called_of v (host_call.LatchHvip bits) }
{
    let e = decide_host::latch_effect(v.csrs, v.waiting, bits);
    by_value_apply::unless_asking(v, e)
}

// Gives the guest the result of an IPI request.
pub fn complete_ipi(v: Vcpu, abi: IpiAbi, completion: IpiCompletion) -> Outcome
    ensures { result ≡ called_of v (host_call.CompleteIpi abi completion) }
{
    let e = decide_host::ipi_effect(v.csrs, v.waiting, abi, completion);
    by_value_apply::unless_asking(v, e)
}
