// The order of a capture's lines, and what each does (01, Replay program): a replay between two bytes takes what was read of
// its line.
#![tactic(auto)]

ghost use Rattle.std.specs.Prelude.{◌≡◌};
ghost use Rattle.in_place_record.specs.View.{view_of};
ghost use Rattle.replay_scope.specs.Output.{after_header, begun, end_gives, got_of, headed_of, line_does, may_end};
ghost use Rattle.replay_traps.specs.InPlace.{state_of, step_with};

use isa_types::GuestPhysAddr;
use replay_scope::{Gives, Got, Kept, Line, Place, Progress};
use replay_traps::Replay;

// Before the first byte: a zero record after setup.
pub fn begin() -> Replay
    ensures { state_of result ≡ begun }
{
    let mut record = [0u64; 58];
    in_place_host_calls::new(&mut record, 0, 0);
    in_place_host_calls::setup(&mut record);
    let line = Line {
        place: Place::Header(0),
        at: 0,
        value: 0,
    };
    let kept = Kept {
        scause: 0,
        stval: 0,
        htval: 0,
        word: 0,
    };
    let progress = Progress {
        line,
        number: 1,
        kept,
        exit: 0,
        over: false,
    };
    Replay { progress, record }
}

// What a reading of the line gave.
pub fn take(replay: &mut Replay, g: Got) -> Gives
    ensures { step_with replay.new result ≡ got_of (state_of replay.old) g }
{
    match g {
        Got::More(at, value) => {
            replay.progress.line.at = at;
            replay.progress.line.value = value;
            Gives::Nothing
        }
        Got::Whole(n) => {
            let place = replay.progress.line.place;
            do_line(replay, place, n)
        }
        Got::Unfit => replay.unfit(),
    }
}

// What the end of the capture gives: nothing where a trap may begin, else the missing line.
pub fn end(replay: &Replay) -> Gives
    ensures { result ≡ end_gives (state_of replay.now).progress }
{
    let progress = replay.progress;
    if progress.over {
        return Gives::Nothing;
    }
    let line = progress.line;
    if may_end(line.place) && line.at == 0 {
        return Gives::Nothing;
    }
    Gives::Bad {
        number: progress.number,
    }
}

// Whether a capture may end before the line at this place.
fn may_end(place: Place) -> bool
    ensures { result ≡ may_end place }
{
    matches!(place, Place::Scause)
}

// The number n of the line at each place.
fn do_line(replay: &mut Replay, place: Place, n: u64) -> Gives
    ensures { step_with replay.new result ≡ line_does place (state_of replay.old) n }
{
    match place {
        Place::Header(i) => {
            head(&mut replay.record, i, n);
            replay.follow(after_header(i));
        }
        Place::Scause => {
            replay.progress.kept.scause = n;
            replay.follow(Place::Stval);
        }
        Place::Stval => {
            replay.progress.kept.stval = n;
            replay.follow(Place::Htval);
        }
        Place::Htval => {
            replay.progress.kept.htval = n;
            replay.follow(Place::Htinst);
        }
        Place::Htinst => return replay.start(n),
        Place::Word => {
            replay.progress.kept.word = n;
            replay.follow(Place::More);
        }
        Place::More => return replay.pair(n),
    }
    Gives::Nothing
}

// Behind line i of the header: its next line, or behind the last the first trap.
fn after_header(i: usize) -> Place
    ensures { result ≡ after_header i }
{
    if i < 32 {
        return Place::Header(i + 1);
    }
    Place::Scause
}

// The record with a header line's number: sepc, vstimecmp, or the register of that line.
fn head(r: &mut [u64; 58], i: usize, n: u64)
    ensures { view_of r.new ≡ headed_of (view_of r.old) i n }
{
    if i == 0 {
        in_place_host_calls::set_entry(r, GuestPhysAddr(n));
        return;
    }
    if i == 1 {
        r[in_place_record::VSTIMECMP] = n;
        return;
    }
    in_place_host_calls::set_gpr(r, i - 1, n);
}
