// Reading a vCPU record of 58 lent words: what waits, the CSRs; and the words of the
// reply that are read off it.
#![tactic(auto)]

ghost use Rattle.std.specs.Prelude.{◌≡◌};
ghost use Rattle.in_place_record.specs.View.{view_of};
ghost use Rattle.in_place_record.specs.Rows.{fetch_out, six_words};

use scope::{Csrs, GuestCsrs, HsCsrs, VsCsrs, Waiting};
use words_numbers::Numbered;

// What waits.
pub fn waiting(r: &[u64; 58]) -> Waiting
    ensures { result ≡ (view_of r.now).waiting }
{
    words_record::waiting_by(
        r[in_place_record::KIND],
        r[in_place_record::FIRST],
        r[in_place_record::SECOND],
        r[in_place_record::THIRD],
    )
}

// a0 to a5 into the reply.
#[tactic(auto, unfolding(in_place_record::specs::Rows::six_words))]
pub fn six(r: &[u64; 58], out: &mut [u64; 8])
    ensures { out.new ≡ six_words r.now out.old }
{
    out[2] = r[in_place_record::A0];
    out[3] = r[in_place_record::A1];
    out[4] = r[in_place_record::A2];
    out[5] = r[in_place_record::A3];
    out[6] = r[in_place_record::A4];
    out[7] = r[in_place_record::A5];
}

// Ask 1: at sepc, with the guest's rights.
#[tactic(auto, unfolding(in_place_record::specs::Rows::fetch_out))]
pub fn ask_fetch(r: &[u64; 58], out: &mut [u64; 8])
    ensures { out.new ≡ fetch_out r.now out.old }
{
    out[0] = r[in_place_record::SEPC];
    out[1] = isa_registers::spvp(r[in_place_record::HSTATUS]).number();
}

// The CSRs, word by word: copied as a slice for words_record::csrs_of they go through the stack, and a host's call takes four times the
// instructions.
#[tactic(auto, using(in_place_record::proofs::Laws::csrs_words_lem))]
pub fn csrs(r: &[u64; 58]) -> Csrs
    ensures { result ≡ (view_of r.now).csrs }
{
    let guest = GuestCsrs {
        sepc: r[in_place_record::SEPC],
        sstatus: r[in_place_record::SSTATUS],
        hstatus: r[in_place_record::HSTATUS],
    };
    let vs = VsCsrs {
        vsstatus: r[in_place_record::VSSTATUS],
        vstvec: r[in_place_record::VSTVEC],
        vsepc: r[in_place_record::VSEPC],
        vscause: r[in_place_record::VSCAUSE],
        vstval: r[in_place_record::VSTVAL],
        vstimecmp: r[in_place_record::VSTIMECMP],
    };
    let hs = HsCsrs {
        hie: r[in_place_record::HIE],
        hvip: r[in_place_record::HVIP],
        hgeie: r[in_place_record::HGEIE],
        hgatp: r[in_place_record::HGATP],
    };
    Csrs { guest, vs, hs }
}
