// The part of the lent buffer that ask 4 prints. The buffer is lent to be read: no call writes it.
#![tactic(auto)]

ghost use Rattle.std.specs.Prelude.{◌≡◌};
ghost use Rattle.scope.specs.Calls.{printed_of};

use scope::Vcpu;

// The bytes to print: the first n of the lent buffer under ask 4, if it has n; else none.
#[tactic(auto, unfolding(scope::specs::Calls::printed_of, scope::specs::Calls::printable, scope::specs::Calls::fitted))]
pub fn to_print<'a>(v: Vcpu, buffer: &'a [u8]) -> &'a [u8]
    ensures { result.now ≡ printed_of v buffer.now }
{
    let n = decide_record::print_count(v.waiting) as usize;
    buffer.get(..n).unwrap_or(&[])
}
