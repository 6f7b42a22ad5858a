// The entry as the host's compiler sees it: one exported function over words. words_record has the record, and words_call
// a call and what it gives back.
#![tactic(auto)]

ghost use Rattle.std.specs.Prelude.{◌≡◌};
ghost use Rattle.words_entry.specs.Words.{Exported, exported_of};

use scope::{HostCall, Record};
use words_call::{CallWords, ReplyWords};

// Makes a call on the host's record where it lies.
#[unsafe(no_mangle)]
pub extern "C" fn vcpu_call(v: &mut Record, c: CallWords) -> ReplyWords
    ensures { Exported v.old c v.new result }
{
    let (rec, reply) = step(*v, c);
    *v = rec;
    reply
}

// The same by value.
#[tactic(auto, unfolding(crate::specs::Words::exported_of, scope::specs::Words::left_of))]
pub fn step(r: Record, c: CallWords) -> (Record, ReplyWords)
    ensures { result ≡ exported_of r c }
{
    let h = HostCall::from(c);
    let o = by_value_entry::call(words_record::unpack(r), h);
    (words_call::left(r, h, o), ReplyWords::from(o))
}
