// A line of a replay's output written: a key, sixteen lowercase hex digits, LF (01, Replay program).
#![tactic(auto)]

ghost use Rattle.std.specs.Prelude.{◌≡◌, ◌+◌, ◌≤◌, length};
ghost use Rattle.replay_scope.specs.Lines.{last_digits, line_text};
ghost use Rattle.replay_output.specs.Eight.{spread_of};
ghost use Rattle.replay_output.specs.Put.{Put, PutLine};

// Writes a line's text at a place of the buffer, and says where it ends. The other bytes stay. Where the line has no
// room nothing is written, and the place itself is given. The place is an argument since the promise, `PutLine`, speaks of it and
// of the bytes on both sides.
pub fn put(key: &[u8], v: u64, out: &mut [u8], at: usize) -> usize
    ensures { PutLine out.old at key.now v result out.new }
{
    let n = out.len();
    if n < at {
        return at;
    }
    if n - at < key.len() {
        return at;
    }
    if n - at - key.len() < 17 {
        return at;
    }
    put_line(key, v, out, at)
}

// The same where it has room.
fn put_line(key: &[u8], v: u64, out: &mut [u8], at: usize) -> usize
    requires { at + length key.now + 17 ≤ length out.old }
    ensures { Put out.old at (line_text key.now v) result out.new }
{
    let a = at + key.len();
    let b = a + 8;
    let e = b + 8;
    out[at..a].copy_from_slice(key);
    out[a..b].copy_from_slice(&eight(v / 0x100000000));
    out[b..e].copy_from_slice(&eight(v));
    out[e] = b'\n';
    e + 1
}

// A number's last eight digits, by one number that has a byte for each. No `{:016x}`: it writes digits one by one, as was
// done before W3, and took 27 ms of a run where this takes 4 (docs/COST.md).
fn eight(v: u64) -> [u8; 8]
    ensures { result ≡ last_digits 8 v }
{
    replay_digits::glyphs(spread(v)).to_le_bytes()
}

// The values of a number's last eight digits, a byte each, the first of them the lowest: fours of digits are moved apart,
// then pairs, then each from its neighbour. An OR has one mask behind it: with one for each of its parts the compiler takes
// vectors on Arm, which are slower there.
fn spread(v: u64) -> u64
    ensures { result ≡ spread_of v }
{
    let fours = v / 65536 % 65536 + v % 65536 * 0x100000000;
    let pairs = (fours / 256 | fours * 65536) & 0x00ff00ff00ff00ff;
    (pairs / 16 | pairs * 256) & 0x0f0f0f0f0f0f0f0f
}
