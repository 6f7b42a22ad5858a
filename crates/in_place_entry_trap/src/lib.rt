// The entry for cost, traps: a trap started and answered, on a vCPU record of 58 words where it lies, exported.
// A host calls these. Each takes the by-value step's decisions and is promised the by-value outcome: `in_place_record/specs/View.antt` has
// the meaning of the words.
#![tactic(auto)]

ghost use Rattle.in_place_record.specs.View.{Made};
ghost use Rattle.in_place_entry_trap.specs.Calls.{answer_call, start_call};

use in_place_answer::AnswerWords;

// Starts a trap. t: scause, stval, htval, htinst, room.
#[unsafe(no_mangle)]
pub extern "C" fn vcpu_start(r: &mut [u64; 58], t: &[u64; 5], out: &mut [u64; 8]) -> u64
    ensures { Made r.old (start_call t.now) r.new out.new result }
{
    *out = [0; 8];
    in_place_start::start(r, out, in_place_start::trap_of(t))
}

// Answers the ask that waits. a: the ask's number, and the answer's two numbers.
#[unsafe(no_mangle)]
pub extern "C" fn vcpu_answer(r: &mut [u64; 58], a: &[u64; 3], out: &mut [u64; 8]) -> u64
    ensures { Made r.old (answer_call a.now) r.new out.new result }
{
    *out = [0u64; 8];
    in_place_answer::answer(r, out, AnswerWords::from(a))
}
