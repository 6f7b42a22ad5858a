// The lines of a capture, read: a key, sixteen lowercase hex digits, LF (01, Replay program). Keys are read here and
// nowhere else. A line that lies whole in the slice is read at once, its digits by crate replay_digits; byte by byte
// only one that the slice's end cuts, that began in the slice before, or that has a byte that does not fit.
#![tactic(auto)]

ghost use Rattle.std.specs.Prelude.{◌≡◌, IfSome, length};
ghost use Rattle.std.specs.Fn.{FnOnceReturnsAt};
ghost use Rattle.replay_scope.specs.Lines.{four_at, header_key, key_of, line_of};
ghost use Rattle.replay_lines.specs.Read.{Read, Spelled};

use replay_scope::{Got, Line, Place};

// What was read of a line, and where the bytes after it begin: a number, of which the definition `Read` speaks.
#[derive(Clone, Copy)]
pub struct Part {
    pub got: Got,
    pub next: usize,
}

// Reads on in a line of a capture: to its end, to a byte that does not fit, or to the end of the bytes. A line of which
// nothing was read before, and that lies whole in the slice, is read at once.
pub fn read(line: Line, s: &[u8]) -> Part
    ensures { Read (key_of line.place) line.at line.value s.now result }
{
    if line.at == 0 && line.value == 0 {
        if let Some(part) = whole(line.place, s) {
            return part;
        }
    }
    with_key(line.place, |key| scan(key, line, s))
}

// A line that lies whole at the slice's front.
fn whole(place: Place, s: &[u8]) -> Option<Part>
    ensures { IfSome result (λ p. Read (key_of place) 0 0 s.now p) }
{
    let n = with_key(place, |key| spell(key, s))?;
    if s[n + 16] != b'\n' {
        return None;
    }
    let w = replay_digits::read(s, n)?;
    Some(Part {
        got: Got::Whole(w),
        next: n + 17,
    })
}

// What f makes of the key of a line. Each key stands at a call of its own, so that what f does is compiled for it.
fn with_key<R, F: FnOnce(&[u8]) -> R>(place: Place, f: F) -> R
    requires { F.IsAlwaysCallable f }
    ensures { FnOnceReturnsAt F.FnOnce f (key_of place) result }
{
    match place {
        Place::Header(i) => with_header_key(i, f),
        Place::Scause => f(b"scause="),
        Place::Stval => f(b"stval="),
        Place::Htval => f(b"htval="),
        Place::Htinst => f(b"htinst="),
        Place::Word => f(b"word="),
        Place::More => f(b"more="),
    }
}

// The same of line i of the header.
fn with_header_key<R, F: FnOnce(&[u8]) -> R>(i: usize, f: F) -> R
    requires { F.IsAlwaysCallable f }
    ensures { FnOnceReturnsAt F.FnOnce f (header_key i) result }
{
    match i {
        0 => f(b"sepc="),
        1 => f(b"vstimecmp="),
        _ => f(register_key(
            b"x01=x02=x03=x04=x05=x06=x07=x08=x09=x10=x11=x12=x13=x14=x15=x16=x17=x18=x19=x20=x21=x22=x23=x24=x25=x26=x27=x28=x29=x30=x31=",
            i - 2,
        )),
    }
}

// The key of the line of a general register: the four bytes at i * 4, as the definition `register_keys` has them, in one text.
fn register_key(keys: &[u8], i: usize) -> &[u8]
    requires { length keys.now ≡ 124 }
    ensures { result.now ≡ four_at keys.now i }
{
    if i < 31 {
        let a = i * 4;
        let e = a + 4;
        return &keys[a..e];
    }
    &keys[..0]
}

// How long the key is, if the bytes begin with it and are long enough for the line.
fn spell(key: &[u8], s: &[u8]) -> Option<usize>
    ensures { Spelled key.now s.now result }
{
    let n = key.len();
    if s.len() < 17 {
        return None;
    }
    if s.len() - 17 < n {
        return None;
    }
    if s.starts_with(key) { Some(n) } else { None }
}

// Reads on byte by byte.
fn scan(key: &[u8], start: Line, s: &[u8]) -> Part
    ensures { Read key.now start.at start.value s.now result }
{
    let Line {
        mut at,
        mut value,
        ..
    } = start;
    for (i, b) in s.iter().enumerate() {
        match line(key, at, value, *b) {
            Got::More(a, v) => {
                at = a;
                value = v;
            }
            got => return Part { got, next: i + 1 },
        }
    }
    Part {
        got: Got::More(at, value),
        next: s.len(),
    }
}

// One byte more of a line, of which `at` bytes gave the number v: the parts, as line_of takes them.
fn line(key: &[u8], at: usize, v: u64, b: u8) -> Got
    ensures { result ≡ line_of key.now at v b }
{
    if at < key.len() {
        if b == key[at] {
            return Got::More(at + 1, v);
        }
        return Got::Unfit;
    }
    if at - key.len() < 16 {
        return match replay_digits::nibble(b) {
            Some(d) => Got::More(at + 1, replay_digits::push(v, d)),
            None => Got::Unfit,
        };
    }
    if b == b'\n' {
        return Got::Whole(v);
    }
    Got::Unfit
}
