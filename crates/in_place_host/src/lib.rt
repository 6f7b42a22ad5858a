// The host's own calls on the lent words, what they share: an effect written where the record lies, and the word of its reply.
#![tactic(auto)]

ghost use Rattle.std.specs.Prelude.{◌≡◌, ◌+◌};
ghost use Rattle.scope.specs.OneTrap.{ask_number};
ghost use Rattle.scope.specs.Refusals.{error_number};
ghost use Rattle.scope.specs.ReplyWords.{reply_word};
ghost use Rattle.in_place_host.specs.Host.{host_words, write_words};

use in_place_record::ReplyWord;
use scope::{Ask, Effect, Error, Reply, Writes};
use words_numbers::Numbered;

// Writes an effect that counts nothing and leaves what waits. The CSRs go word by word: as in in_place_read::csrs, a copy of the slice
// goes through the stack.
#[tactic(auto, unfolding(crate::specs::Host::host_words, scope::specs::Words::csrs_words))]
pub fn host(r: &mut [u64; 58], e: Effect) -> u64
    ensures { (r.new ≡ host_words r.old e) × (result ≡ reply_word e.reply) }
{
    r[in_place_record::SEPC] = e.csrs.guest.sepc;
    r[in_place_record::SSTATUS] = e.csrs.guest.sstatus;
    r[in_place_record::HSTATUS] = e.csrs.guest.hstatus;
    r[in_place_record::VSSTATUS] = e.csrs.vs.vsstatus;
    r[in_place_record::VSTVEC] = e.csrs.vs.vstvec;
    r[in_place_record::VSEPC] = e.csrs.vs.vsepc;
    r[in_place_record::VSCAUSE] = e.csrs.vs.vscause;
    r[in_place_record::VSTVAL] = e.csrs.vs.vstval;
    r[in_place_record::VSTIMECMP] = e.csrs.vs.vstimecmp;
    r[in_place_record::HIE] = e.csrs.hs.hie;
    r[in_place_record::HVIP] = e.csrs.hs.hvip;
    r[in_place_record::HGEIE] = e.csrs.hs.hgeie;
    r[in_place_record::HGATP] = e.csrs.hs.hgatp;
    write(r, e.writes);
    reply_word(e.reply)
}

#[tactic(auto, unfolding(crate::specs::Host::write_words))]
fn write(r: &mut [u64; 58], w: Writes)
    ensures { r.new ≡ write_words r.old w }
{
    match w {
        Writes::Keep => {}
        Writes::One(i, n) => in_place_record::put(r, i, n),
        Writes::Pair(a, b) => {
            r[in_place_record::A0] = a;
            r[in_place_record::A1] = b;
        }
    }
}

#[tactic(auto, unfolding(scope::specs::ReplyWords::reply_word))]
fn reply_word(p: Reply) -> u64
    ensures { result ≡ reply_word p }
{
    match p {
        Reply::Exit(e) => e.number(),
        Reply::Ask(a) => ask_word(a),
        Reply::Done => ReplyWord::Done as u64,
        Reply::Value(_) => ReplyWord::Value as u64,
        Reply::Error(e) => error_word(e),
    }
}

// A table, and not 0x20 + a.number(), here and below: that the sum fits would first have to be shown, which is no plainer.
#[tactic(auto, unfolding(scope::specs::OneTrap::ask_number))]
fn ask_word(a: Ask) -> u64
    ensures { result ≡ 32 + ask_number a }
{
    match a {
        Ask::Fetch { .. } => ReplyWord::Fetch as u64,
        Ask::CopyMask { .. } => ReplyWord::CopyMask as u64,
        Ask::CopyIn { .. } => ReplyWord::CopyIn as u64,
        Ask::Print { .. } => ReplyWord::Print as u64,
        Ask::ReadConsole { .. } => ReplyWord::ReadConsole as u64,
        Ask::CopyOut { .. } => ReplyWord::CopyOut as u64,
        Ask::Emit { .. } => ReplyWord::Emit as u64,
        Ask::GetChar => ReplyWord::GetChar as u64,
        Ask::Forward { .. } => ReplyWord::Forward as u64,
    }
}

#[tactic(auto, unfolding(scope::specs::Refusals::error_number))]
fn error_word(e: Error) -> u64
    ensures { result ≡ 256 + error_number e }
{
    match e {
        Error::InvalidInput => ReplyWord::InvalidInput as u64,
        Error::BadState => ReplyWord::BadState as u64,
        Error::Unsupported => ReplyWord::Unsupported as u64,
        Error::InvalidTrap => ReplyWord::InvalidTrap as u64,
        Error::DecodeFailed => ReplyWord::DecodeFailed as u64,
        Error::GuestMemoryFault => ReplyWord::GuestMemoryFault as u64,
        Error::WrongAnswer => ReplyWord::WrongAnswer as u64,
    }
}
