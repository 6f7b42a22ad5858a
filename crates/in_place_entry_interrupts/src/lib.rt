// The entry for cost, interrupts and IPI results: calls on a vCPU record of 58 words where it lies, exported. The promise is the
// by-value outcome; `in_place_record/specs/View.antt` has the meaning of the words.
#![tactic(auto)]

ghost use Rattle.scope.specs.Words.{call_by};
ghost use Rattle.in_place_record.specs.View.{Done};

use scope::{IpiAbi, IpiCompletion};
use words_numbers::FromNumber;

// Sets or clears a pending interrupt of the guest; level 0 clears.
#[unsafe(no_mangle)]
pub extern "C" fn vcpu_set_pending(r: &mut [u64; 58], vector: u64, level: u64) -> u64
    ensures { Done r.old (call_by 7 vector level 0 0 0) r.new result }
{
    in_place_host_calls::set_pending(r, vector, bool::from_number(level))
}

// Latches pending bits that the hardware raised.
#[unsafe(no_mangle)]
pub extern "C" fn vcpu_latch_hvip(r: &mut [u64; 58], bits: u64) -> u64
    ensures { Done r.old (call_by 8 bits 0 0 0 0) r.new result }
{
    in_place_host_calls::latch_hvip(r, bits)
}

// Gives the guest the result of an IPI request.
#[unsafe(no_mangle)]
pub extern "C" fn vcpu_complete_ipi(r: &mut [u64; 58], convention: u64, completion: u64) -> u64
    ensures { Done r.old (call_by 9 convention completion 0 0 0) r.new result }
{
    in_place_host_calls::complete_ipi(
        r,
        IpiAbi::from_number(convention),
        IpiCompletion::from_number(completion),
    )
}
