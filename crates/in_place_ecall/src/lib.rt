// An SBI call, done on the lent words once it is decided.
#![tactic(auto, unfolding(in_place_record::specs::Rows::call_left))]

ghost use Rattle.std.specs.Prelude.{◌≡◌, set};
ghost use Rattle.in_place_record.specs.Rows.{Leaves, call_left, left, one, step_words, three};
ghost use Rattle.scope.specs.declared.decided.SbiCall.TheVariants as call;

use in_place_record::{ReplyWord, WaitingKind};
use isa_types::GuestPhysAddr;
use scope::{Event, SbiCall};
use words_numbers::Numbered;

// Does an SBI call.
pub fn do_call(r: &mut [u64; 58], out: &mut [u64; 8], d: SbiCall) -> u64
    ensures { Leaves (call_left r.old out.old d) r.new out.new result }
{
    match d {
        SbiCall::Returns(e, v) => {
            in_place_write::pair(r, e, v);
            ReplyWord::Nothing as u64
        }
        SbiCall::Moves => {
            in_place_write::step(r, 4);
            ReplyWord::Nothing as u64
        }
        SbiCall::LegacyTimer(a0) => {
            in_place_write::timer(r, a0);
            in_place_record::give(r, 0);
            ReplyWord::Nothing as u64
        }
        SbiCall::SetTimer(deadline) => {
            in_place_write::timer(r, deadline);
            in_place_write::pair(r, 0, 0);
            ReplyWord::Nothing as u64
        }
        SbiCall::ClearIpi => {
            r[in_place_record::HVIP] = isa_registers::with_bits(
                r[in_place_record::HVIP],
                isa_consts::VSSIP,
                false,
            );
            in_place_record::give(r, 0);
            ReplyWord::Nothing as u64
        }
        SbiCall::PutChar(n) => tells(
            r,
            out,
            n,
            WaitingKind::PutChar as u64,
            ReplyWord::Emit as u64,
        ),
        SbiCall::GetChar => waits(r, WaitingKind::GetChar as u64, ReplyWord::GetChar as u64),
        SbiCall::CopyMask(at) => tells(
            r,
            out,
            at.0,
            WaitingKind::CopyMask as u64,
            ReplyWord::CopyMask as u64,
        ),
        SbiCall::SendIpi(request) => {
            passes(
                r,
                out,
                request.mask,
                request.base,
                request.abi.number(),
                ReplyWord::SendIpi as u64,
            )
        }
        SbiCall::CpuUp(target_cpu, entry_point, arg) => {
            passes(
                r,
                out,
                target_cpu,
                entry_point.0,
                arg,
                ReplyWord::CpuUp as u64,
            )
        }
        SbiCall::CpuDown => tells(
            r,
            out,
            0,
            WaitingKind::Idle as u64,
            ReplyWord::CpuDown as u64,
        ),
        SbiCall::Halt => waits(r, WaitingKind::Idle as u64, ReplyWord::Halt as u64),
        SbiCall::SystemDown => waits(r, WaitingKind::Idle as u64, ReplyWord::SystemDown as u64),
        SbiCall::Hypercall => hypercall(r, out),
        SbiCall::CopyIn(at, n) => copy_in(r, out, at, n),
        SbiCall::ReadConsole(at, n) => read_console(r, out, at, n),
        SbiCall::PutByte(n) => tells(
            r,
            out,
            n,
            WaitingKind::PutByte as u64,
            ReplyWord::Emit as u64,
        ),
        SbiCall::Forward(event) => forward(r, out, event),
    }
}

// The reply has no number; `kind` waits, or nothing does. Here and below the two come as numbers, since the promise speaks of the numbers, and
// each caller's are constants.
fn waits(r: &mut [u64; 58], kind: u64, word: u64) -> u64
    ensures { (r.new ≡ set r.old 54 kind) × (result ≡ word) }
{
    r[in_place_record::KIND] = kind;
    word
}

// The same, and the reply has one number.
fn tells(r: &mut [u64; 58], out: &mut [u64; 8], n: u64, kind: u64, word: u64) -> u64
    ensures { Leaves (left (set r.old 54 kind) (one out.old n) word) r.new out.new result }
{
    out[0] = n;
    r[in_place_record::KIND] = kind;
    word
}

// An exit with three numbers, and sepc moves on.
fn passes(r: &mut [u64; 58], out: &mut [u64; 8], a: u64, b: u64, c: u64, word: u64) -> u64
    ensures { Leaves (left (step_words r.old 4) (three out.old a b c) word) r.new out.new result }
{
    out[0] = a;
    out[1] = b;
    out[2] = c;
    in_place_write::step(r, 4);
    word
}

fn hypercall(r: &mut [u64; 58], out: &mut [u64; 8]) -> u64
    ensures { Leaves (call_left r.old out.old call.Hypercall) r.new out.new result }
{
    out[0] = r[in_place_record::A6];
    in_place_read::six(r, out);
    in_place_write::step(r, 4);
    ReplyWord::Hypercall as u64
}

fn copy_in(r: &mut [u64; 58], out: &mut [u64; 8], at: GuestPhysAddr, n: u64) -> u64
    ensures { Leaves (call_left r.old out.old (call.CopyIn at n)) r.new out.new result }
{
    out[0] = at.0;
    out[1] = n;
    r[in_place_record::KIND] = WaitingKind::CopyIn as u64;
    r[in_place_record::FIRST] = n;
    ReplyWord::CopyIn as u64
}

fn read_console(r: &mut [u64; 58], out: &mut [u64; 8], at: GuestPhysAddr, n: u64) -> u64
    ensures { Leaves (call_left r.old out.old (call.ReadConsole at n)) r.new out.new result }
{
    out[0] = n;
    r[in_place_record::KIND] = WaitingKind::ReadConsole as u64;
    r[in_place_record::FIRST] = n;
    r[in_place_record::SECOND] = at.0;
    ReplyWord::ReadConsole as u64
}

fn forward(r: &mut [u64; 58], out: &mut [u64; 8], event: Event) -> u64
    ensures { Leaves (call_left r.old out.old (call.Forward event)) r.new out.new result }
{
    out[0] = r[in_place_record::A7];
    out[1] = r[in_place_record::A6];
    in_place_read::six(r, out);
    in_place_write::bump(r, event.number() as usize);
    r[in_place_record::KIND] = WaitingKind::Forward as u64;
    ReplyWord::Forward as u64
}
