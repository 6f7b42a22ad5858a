// The vCPU exit handler: a trap's start, its answers and its load's completion, by value. Each call gives the whole
// outcome, and its promise names it: the later record, the reply, and a hypercall's arguments.
#![tactic(auto, unfolding(scope::specs::Calls::called_of, scope::specs::Calls::base_of, scope::specs::Calls::effect_of))]

ghost use Rattle.std.specs.Prelude.{◌≡◌};
ghost use Rattle.scope.specs.declared.hosts.HostCall.TheVariants as host_call;
ghost use Rattle.scope.specs.Calls.{called_of};

use scope::{Answer, Outcome, Trap, Vcpu};

// Starts a trap.
pub fn start(v: Vcpu, t: Trap) -> Outcome
    ensures { result ≡ called_of v (host_call.Start t) }
{
    by_value_apply::apply(v, by_value_start::start(v, t))
}

// Answers the ask that waits.
pub fn answer(v: Vcpu, a: Answer) -> Outcome
    ensures { result ≡ called_of v (host_call.Answer a) }
{
    by_value_apply::apply(v, by_value_answer::answer(v, a))
}

// Completes the load that waits.
pub fn complete_load(v: Vcpu, n: u64) -> Outcome
    ensures { result ≡ called_of v (host_call.CompleteLoad n) }
{
    by_value_apply::apply(v, by_value_classes::complete(v.csrs, v.waiting, n))
}
