// 01's thin entry: every call on a vCPU record behind one function, made where the host's record lies.
#![tactic(auto)]

ghost use Rattle.by_value_lent.specs.Lent.{Stored};

use scope::{HostCall, Outcome, Reply, Vcpu};

// What the host gets back when its record is changed where it lies: an outcome less the record.
#[derive(Clone, Copy)]
pub struct Given {
    pub reply: Reply,
    pub args: [u64; 6],
}

// Makes the call on the host's record where it lies. (The same three lines stand in by_value_posts and the entries over words, each over its
// own outcome: with the call as a closure they would be three again.)
pub fn call_in_place(v: &mut Vcpu, c: HostCall) -> Given
    ensures { Stored v.old c v.new result }
{
    let Outcome { vcpu, reply, args } = by_value_entry::call(*v, c);
    *v = vcpu;
    Given { reply, args }
}
