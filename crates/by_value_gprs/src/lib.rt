// The guest's general registers, read and written by the host.
#![tactic(auto, unfolding(scope::specs::Calls::called_of, scope::specs::Calls::base_of, scope::specs::Calls::effect_of))]

ghost use Rattle.std.specs.Prelude.{◌≡◌};
ghost use Rattle.scope.specs.declared.hosts.HostCall.TheVariants as host_call;
ghost use Rattle.scope.specs.Calls.{called_of, gpr_reply};
ghost use Rattle.by_value_gprs.specs.Given.{reply_of};

use scope::{Error, Outcome, Vcpu};

// Reads a general register.
#[tactic(auto, unfolding(scope::specs::Calls::gpr_reply))]
pub fn get_gpr(v: Vcpu, index: usize) -> Result<u64, Error>
    ensures { reply_of result ≡ gpr_reply v index }
{
    if index < 32 {
        return Ok(decide_record::register(&v.x, index));
    }
    Err(Error::InvalidInput)
}

// Writes a general register; x0 stays.
pub fn set_gpr(v: Vcpu, index: usize, value: u64) -> Outcome
    ensures { result ≡ called_of v (host_call.SetGpr index value) }
{
    let e = decide_host::write_effect(v.csrs, v.waiting, index, value);
    by_value_apply::unless_asking(v, e)
}

// Writes a0.
pub fn set_return_value(v: Vcpu, value: u64) -> Outcome
    ensures { result ≡ called_of v (host_call.SetReturnValue value) }
{
    let e = decide_host::return_effect(v.csrs, v.waiting, value);
    by_value_apply::unless_asking(v, e)
}
