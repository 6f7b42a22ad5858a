// An answer on the lent words, and a load's completion: how the host carries a trap on. The decisions are those of the
// by-value step, and so is what is promised: Laid says it of the whole outcome.
#![tactic(auto)]

ghost use Rattle.std.specs.Prelude.{◌≡◌};
ghost use Rattle.isa_fields.specs.Fields.{rs1_field};
ghost use Rattle.scope.specs.declared.hosts.HostCall.TheVariants as host_call;
ghost use Rattle.scope.specs.declared.machine.Waiting.TheVariants as waiting;
ghost use Rattle.scope.specs.Record.{ecall_ask_number, value_of, applied};
ghost use Rattle.scope.specs.VirtualInstruction.{stimecmp_effect, stimecmp_word};
ghost use Rattle.scope.specs.Answers.{fetch_effect};
ghost use Rattle.scope.specs.Calls.{called_of};
ghost use Rattle.scope.specs.OneTrap.{answer_for, fetch_of};
ghost use Rattle.in_place_record.specs.Steps.{Laid, Settled, trap_leaves};
ghost use Rattle.in_place_record.specs.View.{view_of};
ghost use Rattle.in_place_answer.specs.Words.{answer_words};

use in_place_record::ReplyWord;
use isa_types::GuestPhysAddr;
use scope::{Access, EcallAsk, Fetch, Waiting};

// An answer: the ask's number, and two numbers.
#[derive(Clone, Copy)]
pub struct AnswerWords {
    pub ask: u64,
    pub word: u64,
    pub more: u64,
}

// The answer of three words, read with no record in sight.
impl From<&[u64; 3]> for AnswerWords {
    ghost from_gives = { λ a w. w ≡ answer_words a.now };

    #[tactic(auto, unfolding(crate::specs::Words::answer_words))]
    fn from(a: &[u64; 3]) -> AnswerWords {
        AnswerWords {
            ask: a[0],
            word: a[1],
            more: a[2],
        }
    }
}

// Answers the ask that waits: by what waits, and only then by the answer's number. Where no ask waits every answer is refused.
pub fn answer(r: &mut [u64; 58], out: &mut [u64; 8], a: AnswerWords) -> u64
    ensures { Laid (trap_leaves r.old) out.old (called_of (view_of r.old) (host_call.Answer (answer_for a.ask a.word a.more))) r.new out.new result }
{
    match in_place_read::waiting(r) {
        Waiting::FetchCsr => {
            if a.ask == 1 {
                csr_fetched(r, out, a)
            } else {
                ReplyWord::WrongAnswer as u64
            }
        }
        Waiting::FetchFault { at, access } => {
            if a.ask == 1 {
                mmio_fetched(r, out, at, access, a)
            } else {
                ReplyWord::WrongAnswer as u64
            }
        }
        Waiting::Ecall(e) => ecall_waits(r, out, e, a),
        Waiting::Idle | Waiting::Load { .. } => ReplyWord::WrongAnswer as u64,
    }
}

// Completes the load that waits.
pub fn complete_load(r: &mut [u64; 58], n: u64) -> u64
    ensures { Settled (trap_leaves r.old) (called_of (view_of r.old) (host_call.CompleteLoad n)) r.new result }
{
    let w = in_place_read::waiting(r);
    in_place_record::complete(r, w, n)
}

// An ecall's ask waits. Each has its number at its own place, so that what its answer does follows where the ask is found, and it is
// not looked for again.
fn ecall_waits(r: &mut [u64; 58], out: &mut [u64; 8], e: EcallAsk, a: AnswerWords) -> u64
    ensures { waiting.Ecall e ≡ (view_of r.old).waiting → Laid (trap_leaves r.old) out.old (called_of (view_of r.old) (host_call.Answer (answer_for a.ask a.word a.more))) r.new out.new result }
{
    match e {
        EcallAsk::CopyMask => answered(2, r, out, EcallAsk::CopyMask, a),
        EcallAsk::CopyIn { count } => answered(3, r, out, EcallAsk::CopyIn { count }, a),
        EcallAsk::Print { count } => answered(4, r, out, EcallAsk::Print { count }, a),
        EcallAsk::ReadConsole { count, at } => {
            answered(5, r, out, EcallAsk::ReadConsole { count, at }, a)
        }
        EcallAsk::CopyOut { count } => answered(6, r, out, EcallAsk::CopyOut { count }, a),
        EcallAsk::PutChar => answered(7, r, out, EcallAsk::PutChar, a),
        EcallAsk::PutByte => answered(7, r, out, EcallAsk::PutByte, a),
        EcallAsk::GetChar => answered(8, r, out, EcallAsk::GetChar, a),
        EcallAsk::Forward => answered(9, r, out, EcallAsk::Forward, a),
    }
}

// The answer's numbers go to the ask that waits, of this number.
fn answered(number: u64, r: &mut [u64; 58], out: &mut [u64; 8], e: EcallAsk, a: AnswerWords) -> u64
    ensures { waiting.Ecall e ≡ (view_of r.old).waiting → number ≡ ecall_ask_number e → Laid (trap_leaves r.old) out.old (called_of (view_of r.old) (host_call.Answer (answer_for a.ask a.word a.more))) r.new out.new result }
{
    if a.ask == number {
        return in_place_classes::do_answered(r, out, decide_answers::decide(e, a.word, a.more));
    }
    ReplyWord::WrongAnswer as u64
}

// The fetch of a CSR instruction gave its word, or its fault is handled. (This and mmio_fetched differ in what they call with the word: as a
// closure that would take the record and the reply along, and its promise would be longer than the function.)
fn csr_fetched(r: &mut [u64; 58], out: &mut [u64; 8], a: AnswerWords) -> u64
    ensures { Laid (trap_leaves r.old) out.old (applied (view_of r.old) (fetch_effect (view_of r.old).x (view_of r.old).csrs waiting.FetchCsr (fetch_of a.word a.more))) r.new out.new result }
{
    match words_record::fetch_of(a.word, a.more) {
        Fetch::Word(word) => stimecmp_word(r, out, word as u64),
        f => in_place_classes::do_missed(r, out, decide_fetch::decide(f)),
    }
}

// The fetch of a load or store gave its word, or its fault is handled.
fn mmio_fetched(
    r: &mut [u64; 58],
    out: &mut [u64; 8],
    at: GuestPhysAddr,
    access: Access,
    a: AnswerWords,
) -> u64
    ensures { Laid (trap_leaves r.old) out.old (applied (view_of r.old) (fetch_effect (view_of r.old).x (view_of r.old).csrs (waiting.FetchFault at access) (fetch_of a.word a.more))) r.new out.new result }
{
    match words_record::fetch_of(a.word, a.more) {
        Fetch::Word(word) => {
            in_place_classes::do_mmio(r, out, at, access, isa_decoder::from_fetched(word))
        }
        f => in_place_classes::do_missed(r, out, decide_fetch::decide(f)),
    }
}

// A CSR instruction that was fetched.
fn stimecmp_word(r: &mut [u64; 58], out: &mut [u64; 8], word: u64) -> u64
    ensures { Laid (trap_leaves r.old) out.old (applied (view_of r.old) (stimecmp_effect (view_of r.old).csrs (stimecmp_word word (view_of r.old).csrs.vs.vstimecmp (value_of (view_of r.old).x (rs1_field word))))) r.new out.new result }
{
    let rs1 = decide_record::register(r, isa_fields::rs1(word));
    let d = decide_virtual_inst::decide(word, r[in_place_record::VSTIMECMP], rs1);
    in_place_classes::do_csr(r, out, d)
}
