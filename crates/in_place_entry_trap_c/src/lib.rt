// The entry for cost, traps, as a static library that hosts in C and Rust link.
// Each export calls the function of its name in in_place_entry_trap, and promises what that promises. Both crates stand: no crate can depend
// on a static library, and the theorems and programs above depend on that one.
#![tactic(auto)]

ghost use Rattle.in_place_record.specs.View.{Made};
ghost use Rattle.in_place_entry_trap.specs.Calls.{answer_call, start_call};

// Starts a trap. t: scause, stval, htval, htinst, room.
#[unsafe(no_mangle)]
pub extern "C" fn vcpu_start(r: &mut [u64; 58], t: &[u64; 5], out: &mut [u64; 8]) -> u64
    ensures { Made r.old (start_call t.now) r.new out.new result }
{
    in_place_entry_trap::vcpu_start(r, t, out)
}

// Answers the ask that waits. a: the ask's number, and the answer's two numbers.
#[unsafe(no_mangle)]
pub extern "C" fn vcpu_answer(r: &mut [u64; 58], a: &[u64; 3], out: &mut [u64; 8]) -> u64
    ensures { Made r.old (answer_call a.now) r.new out.new result }
{
    in_place_entry_trap::vcpu_answer(r, a, out)
}
