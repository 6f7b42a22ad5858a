// A call, and what comes of it, as words. specs/Words.antt says what each word means.
#![tactic(auto)]

ghost use Rattle.std.specs.Prelude.{◌≡◌};
ghost use Rattle.scope.specs.ReplyWords.{reply_kind, reply_number, reply_values};
ghost use Rattle.scope.specs.Refusals.{refuses};
ghost use Rattle.scope.specs.Words.{left_by, trap_left, waiting_left};
ghost use Rattle.words_call.specs.Words.{call_of, reply_words_of};
ghost use Rattle.scope.specs.OneTrap.{answer_for};

use isa_types::GuestPhysAddr;
use scope::{
    Answer, Error, HostCall, IpiAbi, IpiCompletion, Outcome, Record, Reply, Trap, Waiting,
};
use words_numbers::{FromNumber, Numbered};

// A call in words. The kind is a number, since C writes it.
#[repr(C)]
#[derive(Clone, Copy)]
pub struct CallWords {
    pub kind: u64,
    pub numbers: [u64; 5],
}

// What a call gives back, in words. Its kind and number are numbers, since C reads them.
#[repr(C)]
#[derive(Clone, Copy)]
pub struct ReplyWords {
    pub kind: u64,
    pub number: u64,
    pub values: [u64; 8],
    pub args: [u64; 6],
}

// The call that words stand for. An unknown kind is no call: it is read as the read of a register that isn't there, which is
// refused.
impl From<CallWords> for HostCall {
    ghost from_gives = { λ c h. h ≡ call_of c };

    #[tactic(auto, unfolding(crate::specs::Words::call_of, scope::specs::Words::call_by))]
    fn from(c: CallWords) -> HostCall {
        let [a, b, d, e, f] = c.numbers;
        match c.kind {
            1 => HostCall::Setup,
            2 => HostCall::SetEntry(GuestPhysAddr(a)),
            3 => HostCall::GetGpr { index: a as usize },
            4 => HostCall::SetGpr {
                index: a as usize,
                value: b,
            },
            5 => HostCall::SetReturnValue { value: a },
            6 => HostCall::SetNestedPageTable {
                levels: a,
                mode: b,
                root: d,
            },
            7 => HostCall::SetPending {
                vector: a,
                level: bool::from_number(b),
            },
            8 => HostCall::LatchHvip { bits: a },
            9 => HostCall::CompleteIpi {
                abi: IpiAbi::from_number(a),
                completion: IpiCompletion::from_number(b),
            },
            10 => HostCall::Start(Trap {
                scause: a,
                stval: b,
                htval: d,
                htinst: e,
                room: f,
            }),
            11 => HostCall::Answer(answer_for(a, b, d)),
            12 => HostCall::CompleteLoad { number: a },
            13 => HostCall::ToPrint { length: a },
            14 => HostCall::New {
                hart_id: a,
                dtb_addr: b,
            },
            _ => HostCall::GetGpr { index: 32 },
        }
    }
}

// The answer of this number, from its two values, which come apart as the definition takes them; a number that is no ask's fits none.
#[tactic(auto, unfolding(scope::specs::OneTrap::answer_for, scope::specs::OneTrap::answer_number))]
fn answer_for(ask: u64, word: u64, more: u64) -> Answer
    ensures { result ≡ answer_for ask word more }
{
    match ask {
        1 => Answer::Fetched(words_record::fetch_of(word, more)),
        2 => Answer::MaskCopied {
            count: word,
            bytes: more,
        },
        3 => Answer::CopiedIn { count: word },
        4 => Answer::Printed {
            error: word,
            value: more,
        },
        5 => Answer::ConsoleRead {
            error: word,
            value: more,
        },
        6 => Answer::CopiedOut { count: word },
        7 => Answer::Emitted,
        8 => Answer::Char { number: word },
        9 => Answer::Forwarded {
            error: word,
            value: more,
        },
        _ => Answer::Other,
    }
}

// What an outcome gives beside the record.
impl From<Outcome> for ReplyWords {
    ghost from_gives = { λ o r. r ≡ reply_words_of o };

    #[tactic(auto, unfolding(crate::specs::Words::reply_words_of))]
    fn from(o: Outcome) -> ReplyWords {
        let Outcome { reply, args, .. } = o;
        ReplyWords {
            kind: reply_kind(reply),
            number: reply_number(reply),
            values: reply_values(reply),
            args,
        }
    }
}

// The record's words after a call with this outcome.
#[tactic(auto, unfolding(scope::specs::Words::left_by))]
pub fn left(r: Record, c: HostCall, o: Outcome) -> Record
    ensures { result ≡ left_by r c o }
{
    let Outcome { vcpu, reply, .. } = o;
    words_record::lay(vcpu, waiting_left(c, r.waiting, reply, vcpu.waiting))
}

// The waiting words that a call leaves: a host's own call leaves them as they were.
#[tactic(auto, unfolding(scope::specs::Words::waiting_left))]
fn waiting_left(c: HostCall, w: [u64; 4], p: Reply, n: Waiting) -> [u64; 4]
    ensures { result ≡ waiting_left c w p n }
{
    match c {
        HostCall::New { .. } => words_record::waiting_words(n),
        HostCall::Start(_) | HostCall::Answer(_) | HostCall::CompleteLoad { .. } => {
            trap_left(w, p, n)
        }
        _ => w,
    }
}

// A refusal leaves them too; else what waits is written over them.
#[tactic(auto, unfolding(scope::specs::Words::trap_left))]
fn trap_left(w: [u64; 4], p: Reply, n: Waiting) -> [u64; 4]
    ensures { result ≡ trap_left w p n }
{
    if refuses(p) {
        return w;
    }
    words_record::waiting_over(w, n)
}

// The call was refused.
#[tactic(auto, unfolding(scope::specs::Refusals::refuses, scope::specs::Refusals::refusal))]
fn refuses(p: Reply) -> bool
    ensures { result ≡ refuses p }
{
    matches!(
        p,
        Reply::Error(Error::InvalidInput | Error::BadState | Error::WrongAnswer)
    )
}

// Which of the five replies it is.
#[tactic(auto, unfolding(scope::specs::ReplyWords::reply_kind))]
fn reply_kind(p: Reply) -> u64
    ensures { result ≡ reply_kind p }
{
    match p {
        Reply::Exit(_) => 0,
        Reply::Ask(_) => 1,
        Reply::Done => 2,
        Reply::Value(_) => 3,
        Reply::Error(_) => 4,
    }
}

// The number of the exit, ask or error.
#[tactic(auto, unfolding(scope::specs::ReplyWords::reply_number))]
fn reply_number(p: Reply) -> u64
    ensures { result ≡ reply_number p }
{
    match p {
        Reply::Exit(e) => e.number(),
        Reply::Ask(a) => a.number(),
        Reply::Done | Reply::Value(_) => 0,
        Reply::Error(e) => e.number(),
    }
}

// The numbers that the reply carries, and 0 for each that it lacks.
#[tactic(auto, unfolding(scope::specs::ReplyWords::reply_values))]
fn reply_values(p: Reply) -> [u64; 8]
    ensures { result ≡ reply_values p }
{
    match p {
        Reply::Exit(e) => {
            let [a, b, c] = words_numbers::exit_values(e);
            [a, b, c, 0, 0, 0, 0, 0]
        }
        Reply::Ask(a) => words_numbers::ask_values(a),
        Reply::Value(n) => [n, 0, 0, 0, 0, 0, 0, 0],
        Reply::Done | Reply::Error(_) => [0, 0, 0, 0, 0, 0, 0, 0],
    }
}
