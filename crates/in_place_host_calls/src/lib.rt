// The host's own calls on the lent words: setup, registers, page table, interrupts, IPI results.
#![tactic(auto, using(in_place_host::specs::Laws::done_keeps, crate::specs::GprsLaws::write_keeps, crate::specs::SetupLaws::paging_keeps, crate::specs::InterruptsLaws::pending_keeps), unfolding(scope::specs::Calls::called_of, scope::specs::Calls::base_of, scope::specs::Calls::effect_of))]

ghost use Rattle.std.specs.Prelude.{◌≡◌, drop, replicate};
ghost use Rattle.scope.specs.declared.machine.Csrs.{Csrs};
ghost use Rattle.scope.specs.declared.machine.Effect.{Effect};
ghost use Rattle.scope.specs.declared.machine.Waiting.{Waiting};
ghost use Rattle.scope.specs.declared.hosts.HostCall.TheVariants as host_call;
ghost use Rattle.scope.specs.Calls.{new_of, called_of};
ghost use Rattle.scope.specs.Record.{applied};
ghost use Rattle.scope.specs.Refusals.{unless_asking};
ghost use Rattle.in_place_host.specs.Host.{Keeps};
ghost use Rattle.in_place_record.specs.Steps.{Laid, Settled, host_leaves};
ghost use Rattle.in_place_record.specs.View.{view_of};

use in_place_record::ReplyWord;
use isa_types::GuestPhysAddr;
use scope::{Csrs, Effect, IpiAbi, IpiCompletion, Waiting};

// The state that a guest starts with.
pub fn setup(r: &mut [u64; 58]) -> u64
    ensures { Settled (host_leaves r.old) (called_of (view_of r.old) host_call.Setup) r.new result }
{
    unless_asking(r, |c, w| decide_host::setup_effect(c, w))
}

// Where the guest starts.
pub fn set_entry(r: &mut [u64; 58], entry: GuestPhysAddr) -> u64
    ensures { Settled (host_leaves r.old) (called_of (view_of r.old) (host_call.SetEntry entry)) r.new result }
{
    unless_asking(r, |c, w| decide_host::entry_effect(c, w, entry))
}

// Sets the guest-stage page table.
pub fn set_nested_page_table(r: &mut [u64; 58], levels: u64, mode: u64, root: u64) -> u64
    ensures { Settled (host_leaves r.old) (called_of (view_of r.old) (host_call.SetNestedPageTable levels mode root)) r.new result }
{
    unless_asking(
        r,
        |c, w| decide_host::paging_effect(c, w, levels, mode, root),
    )
}

// A record of zeros but for what a guest finds at its start.
pub fn new(r: &mut [u64; 58], hart_id: u64, dtb_addr: u64)
    ensures { (view_of r.new ≡ new_of hart_id dtb_addr) × (drop 54 r.new ≡ replicate 4 0) }
{
    *r = [0u64; 58];
    r[in_place_record::A0] = hart_id;
    r[in_place_record::A1] = dtb_addr;
}

// Reads a general register.
pub fn get_gpr(r: &[u64; 58], out: &mut [u64; 8], index: usize) -> u64
    ensures { Laid (host_leaves r.now) out.old (called_of (view_of r.now) (host_call.GetGpr index)) r.now out.new result }
{
    if index < 32 {
        out[0] = decide_record::register(r, index);
        return ReplyWord::Value as u64;
    }
    ReplyWord::InvalidInput as u64
}

// Writes a general register; x0 stays.
pub fn set_gpr(r: &mut [u64; 58], index: usize, value: u64) -> u64
    ensures { Settled (host_leaves r.old) (called_of (view_of r.old) (host_call.SetGpr index value)) r.new result }
{
    unless_asking(r, |c, w| decide_host::write_effect(c, w, index, value))
}

// Writes a0.
pub fn set_return_value(r: &mut [u64; 58], value: u64) -> u64
    ensures { Settled (host_leaves r.old) (called_of (view_of r.old) (host_call.SetReturnValue value)) r.new result }
{
    unless_asking(r, |c, w| decide_host::return_effect(c, w, value))
}

// Sets or clears a pending interrupt of the guest.
pub fn set_pending(r: &mut [u64; 58], vector: u64, level: bool) -> u64
    ensures { Settled (host_leaves r.old) (called_of (view_of r.old) (host_call.SetPending vector level)) r.new result }
{
    unless_asking(r, |c, w| decide_host::pending_effect(c, w, vector, level))
}

// Latches pending bits that the hardware raised.
pub fn latch_hvip(r: &mut [u64; 58], bits: u64) -> u64
    ensures { Settled (host_leaves r.old) (called_of (view_of r.old) (host_call.LatchHvip bits)) r.new result }
{
    unless_asking(r, |c, w| decide_host::latch_effect(c, w, bits))
}

// Gives the guest the result of an IPI request.
pub fn complete_ipi(r: &mut [u64; 58], abi: IpiAbi, completion: IpiCompletion) -> u64
    ensures { Settled (host_leaves r.old) (called_of (view_of r.old) (host_call.CompleteIpi abi completion)) r.new result }
{
    unless_asking(r, |c, w| decide_host::ipi_effect(c, w, abi, completion))
}

// Writes the effect of a host's own call, made of the CSRs and of what waits; while an ask waits the call is refused.
fn unless_asking<F: FnOnce(Csrs, Waiting) -> Effect>(r: &mut [u64; 58], effect: F) -> u64
    requires callable { F.IsAlwaysCallable effect }
    requires keeps { (c : Csrs) (w : Waiting) (e : Effect) → F.post effect c w e → Keeps e w }
    ensures { (e : Effect) × F.post effect (view_of r.old).csrs (view_of r.old).waiting e × Settled (host_leaves r.old) (applied (view_of r.old) (unless_asking (view_of r.old) e)) r.new result }
{
    let c = in_place_read::csrs(r);
    let w = in_place_read::waiting(r);
    let e = effect(c, w);
    if decide_record::ask_of(w) == 0 {
        return in_place_host::host(r, e);
    }
    ReplyWord::BadState as u64
}
