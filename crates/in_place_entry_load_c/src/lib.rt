// The entry for cost, what a trap leaves to do, as a static library that hosts in C and Rust link.
// Each export calls the function of its name in in_place_entry_load, and promises what that promises. Both crates stand: no crate can depend
// on a static library, and the theorems and programs above depend on that one.
#![tactic(auto)]

ghost use Rattle.std.specs.Prelude.{◌≡◌};
ghost use Rattle.scope.specs.Calls.{printable};
ghost use Rattle.scope.specs.Words.{call_by};
ghost use Rattle.in_place_record.specs.View.{Done, view_of};

// Completes the load that waits.
#[unsafe(no_mangle)]
pub extern "C" fn vcpu_complete_load(r: &mut [u64; 58], number: u64) -> u64
    ensures { Done r.old (call_by 12 number 0 0 0 0) r.new result }
{
    in_place_entry_load::vcpu_complete_load(r, number)
}

// How many bytes of a lent buffer of this length are to be printed: ask 4's n where it waits, if the buffer has n; else 0.
#[unsafe(no_mangle)]
pub extern "C" fn vcpu_to_print(r: &[u64; 58], length: u64) -> u64
    ensures { result ≡ printable (view_of r.now).waiting length }
{
    in_place_entry_load::vcpu_to_print(r, length)
}
