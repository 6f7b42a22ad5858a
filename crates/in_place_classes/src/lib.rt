// A virtual instruction, a guest page fault, a failed fetch and an answer, each done on the lent words once it is decided. by_value_classes
// and by_value_ecall do the same decisions by value, as effects: here only the words that change are written, which is what the entry for
// cost is for (docs/COST.md), and a trait over both would have each row stated twice, as an effect and as words. Likewise in in_place_ecall,
// in_place_answer, in_place_start and in_place_host_calls, beside their namesakes by value.
#![tactic(auto)]

ghost use Rattle.scope.specs.GuestPageFault.{mmio_of};
ghost use Rattle.scope.specs.Record.{applied};
ghost use Rattle.in_place_record.specs.Steps.{Laid, trap_leaves};
ghost use Rattle.in_place_record.specs.View.{view_of};
ghost use Rattle.in_place_record.specs.Rows.{Leaves, answered_left, csr_left, fault_left, missed_left};

use in_place_record::{ReplyWord, WaitingKind};
use isa_decoder::Trapped;
use isa_types::GuestPhysAddr;
use scope::{Access, Answered, Event, Fault, Missed, Stimecmp};
use words_numbers::Numbered;

// Does a virtual instruction.
#[tactic(auto, unfolding(in_place_record::specs::Rows::csr_left, scope::specs::Record::event_number))]
pub fn do_csr(r: &mut [u64; 58], out: &mut [u64; 8], d: Stimecmp) -> u64
    ensures { Leaves (csr_left r.old out.old d) r.new out.new result }
{
    match d {
        Stimecmp::Illegal => {
            in_place_write::bump(r, Event::IllegalInsn.number() as usize);
            r[in_place_record::KIND] = WaitingKind::Idle as u64;
            ReplyWord::Unsupported as u64
        }
        Stimecmp::Fetch => {
            in_place_read::ask_fetch(r, out);
            r[in_place_record::KIND] = WaitingKind::FetchCsr as u64;
            ReplyWord::Fetch as u64
        }
        Stimecmp::Write { rd, timer } => {
            let old = r[in_place_record::VSTIMECMP];
            r[in_place_record::VSTIMECMP] = timer;
            in_place_write::step(r, 4);
            in_place_record::put(r, rd, old);
            ReplyWord::Nothing as u64
        }
    }
}

// Does a guest page fault.
#[tactic(auto, unfolding(in_place_record::specs::Rows::fault_left))]
pub fn do_fault(
    r: &mut [u64; 58],
    out: &mut [u64; 8],
    at: GuestPhysAddr,
    access: Access,
    d: Fault,
) -> u64
    ensures { Leaves (fault_left r.old out.old at access d) r.new out.new result }
{
    match d {
        Fault::Fetch => {
            in_place_read::ask_fetch(r, out);
            r[in_place_record::KIND] = WaitingKind::FetchFault as u64;
            r[in_place_record::FIRST] = at.0;
            r[in_place_record::SECOND] = access.number();
            ReplyWord::Fetch as u64
        }
        Fault::Walk => {
            r[in_place_record::KIND] = WaitingKind::Idle as u64;
            ReplyWord::Unsupported as u64
        }
        Fault::Unfit => {
            r[in_place_record::KIND] = WaitingKind::Idle as u64;
            ReplyWord::DecodeFailed as u64
        }
        Fault::Nested => {
            out[0] = at.0;
            out[1] = access.number();
            r[in_place_record::KIND] = WaitingKind::Idle as u64;
            ReplyWord::NestedPageFault as u64
        }
        Fault::Load {
            width,
            signed,
            rd,
            length,
        } => {
            let bytes = width.number();
            out[0] = at.0;
            out[1] = bytes;
            r[in_place_record::KIND] = WaitingKind::Load as u64;
            r[in_place_record::FIRST] = rd as u64;
            r[in_place_record::SECOND] = bytes;
            r[in_place_record::THIRD] = signed.number();
            in_place_record::advance(r, length);
            ReplyWord::MmioRead as u64
        }
        Fault::Store {
            width,
            data,
            length,
        } => {
            out[0] = at.0;
            out[1] = width.number();
            out[2] = data;
            in_place_write::step(r, length);
            ReplyWord::MmioWrite as u64
        }
    }
}

// Does a load or store of a device, once its instruction is known: a trap's, or the word of a fetch. It is always put in its callers'
// places, so that the instruction passes in registers. `at` and `access` come apart, as what waits has them (Waiting::FetchFault), and
// are used apart: a struct of the two would only be made and opened again.
#[inline(always)]
pub fn do_mmio(
    r: &mut [u64; 58],
    out: &mut [u64; 8],
    at: GuestPhysAddr,
    access: Access,
    i: Trapped,
) -> u64
    ensures { Laid (trap_leaves r.old) out.old (applied (view_of r.old) (mmio_of (view_of r.old).x (view_of r.old).csrs at access i)) r.new out.new result }
{
    let source = decide_record::register(r, isa_decoder::store_source(i));
    do_fault(
        r,
        out,
        at,
        access,
        decide_page_fault::decide(access, i, source),
    )
}

// Does a failed fetch.
#[tactic(auto, unfolding(in_place_record::specs::Rows::missed_left, scope::specs::OneTrap::access_number))]
pub fn do_missed(r: &mut [u64; 58], out: &mut [u64; 8], d: Missed) -> u64
    ensures { Leaves (missed_left r.old out.old d) r.new out.new result }
{
    match d {
        Missed::Inject { cause, addr } => {
            let c = in_place_read::csrs(r);
            in_place_write::inject(r, decide_fetch::inject(c, cause, addr));
            ReplyWord::Nothing as u64
        }
        Missed::Nested(addr) => {
            out[0] = addr.0;
            out[1] = Access::Execute.number();
            r[in_place_record::KIND] = WaitingKind::Idle as u64;
            ReplyWord::NestedPageFault as u64
        }
        Missed::Unhandled => {
            r[in_place_record::KIND] = WaitingKind::Idle as u64;
            ReplyWord::GuestMemoryFault as u64
        }
    }
}

// Does the answer to an ecall's ask.
#[tactic(auto, unfolding(in_place_record::specs::Rows::answered_left))]
pub fn do_answered(r: &mut [u64; 58], out: &mut [u64; 8], d: Answered) -> u64
    ensures { Leaves (answered_left r.old out.old d) r.new out.new result }
{
    match d {
        Answered::Moves => {
            in_place_write::step(r, 4);
            ReplyWord::Nothing as u64
        }
        Answered::Gives(n) => {
            in_place_record::give(r, n);
            ReplyWord::Nothing as u64
        }
        Answered::Returns(e, v) => {
            in_place_write::pair(r, e, v);
            ReplyWord::Nothing as u64
        }
        Answered::SendIpi(request) => {
            out[0] = request.mask;
            out[1] = request.base;
            out[2] = request.abi.number();
            in_place_write::step(r, 4);
            ReplyWord::SendIpi as u64
        }
        Answered::Print(n) => {
            out[0] = n;
            r[in_place_record::KIND] = WaitingKind::Print as u64;
            r[in_place_record::FIRST] = n;
            ReplyWord::Print as u64
        }
        Answered::CopyOut(at, n) => {
            out[0] = at.0;
            out[1] = n;
            r[in_place_record::KIND] = WaitingKind::CopyOut as u64;
            r[in_place_record::FIRST] = n;
            ReplyWord::CopyOut as u64
        }
    }
}
