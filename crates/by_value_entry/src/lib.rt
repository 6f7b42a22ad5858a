// Every call on a vCPU record behind one function, by value.
#![tactic(auto)]

ghost use Rattle.std.specs.Prelude.{◌≡◌, replicate};
ghost use Rattle.scope.specs.Calls.{called_of, gpr_reply};

use scope::{HostCall, Outcome, Reply, Vcpu};

// Makes the call on a record that is handed over by value.
#[tactic(auto, unfolding(scope::specs::Calls::called_of, scope::specs::Calls::base_of, scope::specs::Calls::effect_of, scope::specs::Record::applied, scope::specs::Record::stored, scope::specs::Record::counted, scope::specs::Record::bumped, scope::specs::Record::event_number, scope::specs::Record::no_args, scope::specs::Record::listed, scope::specs::Refusals::leaves_of, scope::specs::Refusals::done_of))]
pub fn call(v: Vcpu, c: HostCall) -> Outcome
    ensures { result ≡ called_of v c }
{
    match c {
        HostCall::New { hart_id, dtb_addr } => {
            plain(by_value_setup::new(hart_id, dtb_addr), Reply::Done)
        }
        HostCall::Setup => by_value_setup::setup(v),
        HostCall::SetEntry(at) => by_value_setup::set_entry(v, at),
        HostCall::GetGpr { index } => plain(v, read(v, index)),
        HostCall::SetGpr { index, value } => by_value_gprs::set_gpr(v, index, value),
        HostCall::SetReturnValue { value } => by_value_gprs::set_return_value(v, value),
        HostCall::SetNestedPageTable { levels, mode, root } =>
            by_value_setup::set_nested_page_table(v, levels, mode, root),
        HostCall::SetPending { vector, level } =>
            by_value_interrupts::set_virtual_interrupt_pending(v, vector, level),
        HostCall::LatchHvip { bits } => by_value_interrupts::latch_hvip(v, bits),
        HostCall::CompleteIpi { abi, completion } => by_value_interrupts::complete_ipi(
            v, abi, completion,
        ),
        HostCall::Start(t) => by_value_vcpu::start(v, t),
        HostCall::Answer(a) => by_value_vcpu::answer(v, a),
        HostCall::CompleteLoad { number } => by_value_vcpu::complete_load(v, number),
        HostCall::ToPrint { length } => {
            plain(v, Reply::Value(decide_record::printable(v.waiting, length)))
        }
    }
}

// The outcome of a call that is no hypercall and leaves this record.
fn plain(vcpu: Vcpu, reply: Reply) -> Outcome
    ensures { result ≡ record { vcpu = vcpu; reply = reply; args = replicate 6 0 } }
{
    Outcome {
        vcpu,
        reply,
        args: [0; 6],
    }
}

// A register read, as a reply.
fn read(v: Vcpu, index: usize) -> Reply
    ensures { result ≡ gpr_reply v index }
{
    match by_value_gprs::get_gpr(v, index) {
        Ok(n) => Reply::Value(n),
        Err(e) => Reply::Error(e),
    }
}
