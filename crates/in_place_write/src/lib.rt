// The small writes that change a vCPU record of 58 lent words where it lies, beside those of in_place_record.
#![tactic(auto)]

ghost use Rattle.std.specs.Prelude.{◌≡◌};
ghost use Rattle.in_place_record.specs.Rows.{bump_words, inject_words, pair_words, step_words, timer_words};

use in_place_record::WaitingKind;
use scope::{Csrs, Event};
use words_numbers::Numbered;

// Nothing waits, and sepc moves on.
#[tactic(auto, unfolding(in_place_record::specs::Rows::step_words))]
pub fn step(r: &mut [u64; 58], by: u64)
    ensures { r.new ≡ step_words r.old by }
{
    r[in_place_record::KIND] = WaitingKind::Idle as u64;
    in_place_record::advance(r, by);
}

// a0 and a1 are these, and the call is finished.
#[tactic(auto, unfolding(in_place_record::specs::Rows::pair_words))]
pub fn pair(r: &mut [u64; 58], e: u64, v: u64)
    ensures { r.new ≡ pair_words r.old e v }
{
    r[in_place_record::KIND] = WaitingKind::Idle as u64;
    r[in_place_record::A0] = e;
    r[in_place_record::A1] = v;
    in_place_record::advance(r, 4);
}

// The timer's pending bit is cleared, the timer set, and counted.
#[tactic(auto, unfolding(in_place_record::specs::Rows::timer_words, scope::specs::Record::event_number))]
pub fn timer(r: &mut [u64; 58], deadline: u64)
    ensures { r.new ≡ timer_words r.old deadline }
{
    r[in_place_record::HVIP] = isa_registers::with_bits(
        r[in_place_record::HVIP],
        isa_consts::VSTIP,
        false,
    );
    r[in_place_record::VSTIMECMP] = deadline;
    bump(r, Event::SetTimer.number() as usize);
}

// One more in the count of an event's number; 0 is no event.
#[tactic(auto, unfolding(in_place_record::specs::Rows::bump_words, isa_types::specs::Pick::wrapped))]
pub fn bump(r: &mut [u64; 58], number: usize)
    ensures { r.new ≡ bump_words r.old number }
{
    if number != 0 && number < 10 {
        let at = number + 44;
        r[at] = r[at].wrapping_add(1);
    }
}

// The CSRs that an injected exception changes.
#[tactic(auto, unfolding(in_place_record::specs::Rows::inject_words))]
pub fn inject(r: &mut [u64; 58], c: Csrs)
    ensures { r.new ≡ inject_words r.old c }
{
    r[in_place_record::KIND] = WaitingKind::Idle as u64;
    r[in_place_record::VSSTATUS] = c.vs.vsstatus;
    r[in_place_record::VSEPC] = c.vs.vsepc;
    r[in_place_record::VSCAUSE] = c.vs.vscause;
    r[in_place_record::VSTVAL] = c.vs.vstval;
    r[in_place_record::SEPC] = c.guest.sepc;
    r[in_place_record::SSTATUS] = c.guest.sstatus;
}
