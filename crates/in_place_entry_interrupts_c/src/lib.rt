// The entry for cost, interrupts and IPI results, as a static library that hosts in C and Rust link.
// Each export calls the function of its name in in_place_entry_interrupts, and promises what that promises. Both crates stand: no crate can depend
// on a static library, and the theorems and programs above depend on that one.
#![tactic(auto)]

ghost use Rattle.scope.specs.Words.{call_by};
ghost use Rattle.in_place_record.specs.View.{Done};

// Sets or clears a pending interrupt of the guest; level 0 clears.
#[unsafe(no_mangle)]
pub extern "C" fn vcpu_set_pending(r: &mut [u64; 58], vector: u64, level: u64) -> u64
    ensures { Done r.old (call_by 7 vector level 0 0 0) r.new result }
{
    in_place_entry_interrupts::vcpu_set_pending(r, vector, level)
}

// Latches pending bits that the hardware raised.
#[unsafe(no_mangle)]
pub extern "C" fn vcpu_latch_hvip(r: &mut [u64; 58], bits: u64) -> u64
    ensures { Done r.old (call_by 8 bits 0 0 0 0) r.new result }
{
    in_place_entry_interrupts::vcpu_latch_hvip(r, bits)
}

// Gives the guest the result of an IPI request.
#[unsafe(no_mangle)]
pub extern "C" fn vcpu_complete_ipi(r: &mut [u64; 58], convention: u64, completion: u64) -> u64
    ensures { Done r.old (call_by 9 convention completion 0 0 0) r.new result }
{
    in_place_entry_interrupts::vcpu_complete_ipi(r, convention, completion)
}
