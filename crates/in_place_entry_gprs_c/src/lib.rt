// The entry for cost, general registers, as a static library that hosts in C and Rust link.
// Each export calls the function of its name in in_place_entry_gprs, and promises what that promises. Both crates stand: no crate can depend
// on a static library, and the theorems and programs above depend on that one.
#![tactic(auto)]

ghost use Rattle.scope.specs.Words.{call_by};
ghost use Rattle.in_place_record.specs.View.{Done, Made};

// Reads a general register: its value in out's first word, and 0 in the others.
#[unsafe(no_mangle)]
pub extern "C" fn vcpu_get_gpr(r: &[u64; 58], index: u64, out: &mut [u64; 8]) -> u64
    ensures { Made r.now (call_by 3 index 0 0 0 0) r.now out.new result }
{
    in_place_entry_gprs::vcpu_get_gpr(r, index, out)
}

// Writes a general register; x0 stays.
#[unsafe(no_mangle)]
pub extern "C" fn vcpu_set_gpr(r: &mut [u64; 58], index: u64, value: u64) -> u64
    ensures { Done r.old (call_by 4 index value 0 0 0) r.new result }
{
    in_place_entry_gprs::vcpu_set_gpr(r, index, value)
}

// Writes a0.
#[unsafe(no_mangle)]
pub extern "C" fn vcpu_set_return_value(r: &mut [u64; 58], value: u64) -> u64
    ensures { Done r.old (call_by 5 value 0 0 0 0) r.new result }
{
    in_place_entry_gprs::vcpu_set_return_value(r, value)
}
