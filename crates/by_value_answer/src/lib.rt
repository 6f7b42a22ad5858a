// How an answer carries a trap on. scope/specs/Answers.antt defines it.
#![tactic(auto)]

ghost use Rattle.std.specs.Prelude.{◌≡◌};
ghost use Rattle.scope.specs.declared.traps.Error.TheVariants as error;
ghost use Rattle.scope.specs.Refusals.{refused_of};
ghost use Rattle.scope.specs.Answers.{answer_effect, fetch_effect, numbers_effect, word_effect};

use scope::{Answer, Csrs, Effect, Error, Fetch, Vcpu, Waiting};
use words_numbers::Numbered;

// Carries a trap on with the host's answer. An answer of another ask's kind, or to no ask, is refused.
#[tactic(auto, unfolding(scope::specs::Answers::answer_effect, scope::specs::Answers::fitting_effect, scope::specs::Answers::values_effect, scope::specs::OneTrap::answer_values))]
pub fn answer(v: Vcpu, a: Answer) -> Effect
    ensures { result ≡ answer_effect v.x v.csrs v.waiting a }
{
    let x = v.x;
    let c = v.csrs;
    let w = v.waiting;
    if decide_record::ask_of(w) != a.number() {
        return unfit(c, w);
    }
    match a {
        Answer::Fetched(f) => fetched(x, c, w, f),
        Answer::MaskCopied { count, bytes } => numbers(c, w, count, bytes),
        Answer::CopiedIn { count } | Answer::CopiedOut { count } => numbers(c, w, count, 0),
        Answer::Printed { error, value }
        | Answer::ConsoleRead { error, value }
        | Answer::Forwarded { error, value } => numbers(c, w, error, value),
        Answer::Emitted => numbers(c, w, 0, 0),
        Answer::Char { number } => numbers(c, w, number, 0),
        Answer::Other => unfit(c, w),
    }
}

// The numbers of an answer go to the ecall that waits.
#[tactic(auto, unfolding(scope::specs::Answers::numbers_effect))]
fn numbers(c: Csrs, w: Waiting, word: u64, more: u64) -> Effect
    ensures { result ≡ numbers_effect c w word more }
{
    let Waiting::Ecall(a) = w else {
        return unfit(c, w);
    };
    by_value_ecall::answered(c, decide_answers::decide(a, word, more))
}

// A fetch gave a word, or its fault is handled.
#[tactic(auto, unfolding(scope::specs::Answers::fetch_effect))]
fn fetched(x: [u64; 32], c: Csrs, w: Waiting, f: Fetch) -> Effect
    ensures { result ≡ fetch_effect x c w f }
{
    let Fetch::Word(word) = f else {
        return by_value_classes::missed(c, decide_fetch::decide(f));
    };
    resumed(x, c, w, word)
}

// The trap goes on with the word that was fetched.
#[tactic(auto, unfolding(scope::specs::Answers::word_effect))]
fn resumed(x: [u64; 32], c: Csrs, w: Waiting, word: u32) -> Effect
    ensures { result ≡ word_effect x c w word }
{
    match w {
        Waiting::FetchCsr => {
            let wide = u64::from(word);
            let rs1 = by_value_start::content_of(x, isa_fields::rs1(wide));
            by_value_classes::csr(c, decide_virtual_inst::decide(wide, c.vs.vstimecmp, rs1))
        }
        Waiting::FetchFault { at, access } => {
            by_value_start::mmio(x, c, at, access, isa_decoder::from_fetched(word))
        }
        _ => unfit(c, w),
    }
}

// An answer that fits no ask that waits is refused.
fn unfit(c: Csrs, w: Waiting) -> Effect
    ensures { result ≡ refused_of c w error.WrongAnswer }
{
    decide_effects::refused(c, w, Error::WrongAnswer)
}
