// What the host's own calls do to a record: setup, entry, registers, page table, interrupts, IPI results.
#![tactic(auto)]

ghost use Rattle.std.specs.Prelude.{◌≡◌};
ghost use Rattle.std.specs.Int.Bits.{bit_or};
ghost use Rattle.scope.specs.declared.machine.Writes.TheVariants as writes;
ghost use Rattle.scope.specs.Ecalls.{completion_number};
ghost use Rattle.scope.specs.Record.{pended};
ghost use Rattle.scope.specs.Refusals.{done_of};
ghost use Rattle.scope.specs.Host.{entry_csrs, ipi_writes, hvip_bit_of, paging_by, paging_effect, pending_effect, setup_csrs, table_csrs, write_effect};
ghost use Rattle.isa_registers.specs.Bits.{with_bits};

use isa_types::GuestPhysAddr;
use scope::{Csrs, Effect, Error, GuestCsrs, HsCsrs, IpiAbi, IpiCompletion, Waiting, Writes};
use words_numbers::Numbered;

// The CSRs that a guest starts with.
#[tactic(auto, unfolding(scope::specs::Host::setup_csrs))]
pub fn setup_csrs(c: Csrs) -> Csrs
    ensures { result ≡ setup_csrs c }
{
    let guest = GuestCsrs {
        sstatus: isa_consts::SETUP_SSTATUS,
        hstatus: isa_consts::SETUP_HSTATUS,
        ..c.guest
    };
    let hs = HsCsrs {
        hie: isa_consts::SETUP_HIE,
        hvip: 0,
        hgeie: 0,
        ..c.hs
    };
    Csrs {
        guest,
        hs,
        ..decide_record::with_timer(c, isa_consts::NO_TIMER)
    }
}

// sepc is the entry.
#[tactic(auto, unfolding(scope::specs::Host::entry_csrs))]
pub fn entry_csrs(c: Csrs, entry: GuestPhysAddr) -> Csrs
    ensures { result ≡ entry_csrs c entry }
{
    let mut n = c;
    n.guest.sepc = entry.0;
    n
}

// The effect of each of the host's calls, unless an ask waits; by_value_* and in_place_host_calls do it.

// The state that a guest starts with.
pub fn setup_effect(c: Csrs, w: Waiting) -> Effect
    ensures { result ≡ done_of (setup_csrs c) writes.Keep w }
{
    decide_effects::done(setup_csrs(c), Writes::Keep, w)
}

// Where the guest starts.
pub fn entry_effect(c: Csrs, w: Waiting, entry: GuestPhysAddr) -> Effect
    ensures { result ≡ done_of (entry_csrs c entry) writes.Keep w }
{
    decide_effects::done(entry_csrs(c, entry), Writes::Keep, w)
}

// Writes a0.
pub fn return_effect(c: Csrs, w: Waiting, value: u64) -> Effect
    ensures { result ≡ done_of c (writes.One 10 value) w }
{
    decide_effects::done(c, Writes::One(10, value), w)
}

// Latches pending bits that the hardware raised.
pub fn latch_effect(c: Csrs, w: Waiting, bits: u64) -> Effect
    ensures { result ≡ done_of (pended c (bit_or c.hs.hvip bits)) writes.Keep w }
{
    let latched = decide_record::with_hvip(c, c.hs.hvip | bits);
    decide_effects::done(latched, Writes::Keep, w)
}

// Gives the guest the result of an IPI request.
pub fn ipi_effect(c: Csrs, w: Waiting, abi: IpiAbi, completion: IpiCompletion) -> Effect
    ensures { result ≡ done_of c (ipi_writes abi (completion_number completion)) w }
{
    decide_effects::done(c, ipi_writes(abi, completion.number()), w)
}

// Writes a general register.
#[tactic(auto, unfolding(scope::specs::Host::write_effect))]
pub fn write_effect(c: Csrs, w: Waiting, index: usize, value: u64) -> Effect
    ensures { result ≡ write_effect c w index value }
{
    if index < 32 {
        return decide_effects::done(c, Writes::One(index, value), w);
    }
    decide_effects::refused(c, w, Error::InvalidInput)
}

// Sets the guest-stage page table: the three numbers of one call of C's.
#[tactic(auto, unfolding(scope::specs::Host::paging_effect))]
pub fn paging_effect(c: Csrs, w: Waiting, levels: u64, mode: u64, root: u64) -> Effect
    ensures { result ≡ paging_effect c w levels mode root }
{
    match levels {
        3 => paging_by(c, w, 8, mode, root),
        4 => paging_by(c, w, 9, mode, root),
        _ => decide_effects::refused(c, w, Error::InvalidInput),
    }
}

// Sets or clears a pending interrupt of the guest, by the host's vector.
#[tactic(auto, unfolding(scope::specs::Host::pending_effect))]
pub fn pending_effect(c: Csrs, w: Waiting, vector: u64, on: bool) -> Effect
    ensures { result ≡ pending_effect c w vector on }
{
    let line = line_of(vector);
    if line == 0 {
        return decide_effects::refused(c, w, Error::InvalidInput);
    }
    let hvip = isa_registers::with_bits(c.hs.hvip, line, on);
    decide_effects::done(decide_record::with_hvip(c, hvip), Writes::Keep, w)
}

// The bit of hvip that a vector stands for, or 0: an Option would bring a jump. In a row of posts the next vector is not foretold, so the three are chosen from and
// not branched on.
pub fn line_of(vector: u64) -> u64
    ensures { result ≡ hvip_bit_of vector }
{
    let soft = isa_types::select(vector == isa_consts::S_SOFT, isa_consts::VSSIP, 0);
    let timer = isa_types::select(vector == isa_consts::S_TIMER, isa_consts::VSTIP, 0);
    let external = isa_types::select(
        isa_consts::is_supervisor_external(vector),
        isa_consts::VSEIP,
        0,
    );
    soft | timer | external
}

// The registers that an IPI result goes to.
#[tactic(auto, unfolding(scope::specs::Host::ipi_writes))]
pub fn ipi_writes(abi: IpiAbi, error: u64) -> Writes
    ensures { result ≡ ipi_writes abi error }
{
    match abi {
        IpiAbi::Legacy => Writes::One(10, error),
        IpiAbi::SbiV02 => Writes::Pair(error, 0),
    }
}

#[tactic(auto, unfolding(scope::specs::Host::paging_by))]
fn paging_by(c: Csrs, w: Waiting, wanted: u64, mode: u64, root: u64) -> Effect
    ensures { result ≡ paging_by c w wanted mode root }
{
    if mode == wanted && root % 0x4000 == 0 {
        return decide_effects::done(table_csrs(c, mode, root), Writes::Keep, w);
    }
    decide_effects::refused(c, w, Error::InvalidInput)
}

#[tactic(auto, unfolding(scope::specs::Host::table_csrs))]
fn table_csrs(c: Csrs, mode: u64, root: u64) -> Csrs
    ensures { result ≡ table_csrs c mode root }
{
    let hgatp = isa_registers::hgatp_value(mode, root);
    let mut n = c;
    n.hs.hgatp = hgatp;
    n
}
