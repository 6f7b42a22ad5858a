// Lowercase hex digits read (01, Replay program; 02, W3). Sixteen of them are read here and nowhere else: `read` promises
// what they are, and who calls it knows nothing of how it finds that out.
#![tactic(auto)]

ghost use Rattle.std.specs.Prelude.{◌≡◌, drop, length, take};
ghost use Rattle.replay_scope.specs.Lines.{push_of};
ghost use Rattle.replay_digits.specs.Hex.{digit_in, hex_of};
ghost use Rattle.replay_digits.specs.Words.{glyphs_of, pack_of, values_of};

// The number of the sixteen digits at a place of a slice. The place is an argument since the promise, which docs/CLAIMS.md has
// word for word (W3), speaks of it. No `u64::from_str_radix`: it takes capitals and a sign too, and digits one by one, as the reader
// before W3 did, which took 21 ms of a run where this one takes 12 (docs/COST.md).
pub fn read(s: &[u8], at: usize) -> Option<u64>
    ensures { result ≡ hex_of (take 16 (drop at s.now)) }
{
    if s.len() < at {
        return None;
    }
    if s.len() - at < 16 {
        return None;
    }
    let e = at + 16;
    sixteen(&s[at..e])
}

// The same of a slice that has just these, eight at a time, each eight as one number by one load, the first of them the
// lowest: their values are found as if every byte were a digit, and then the digits with these values must be the bytes that
// were read.
fn sixteen(s: &[u8]) -> Option<u64>
    requires { length s.now ≡ 16 }
    ensures { result ≡ hex_of s.now }
{
    let (halves, _) = s.as_chunks::<8>();
    let a = u64::from_le_bytes(halves[0]);
    let h = values(a);
    if glyphs(h) != a {
        return None;
    }
    let b = u64::from_le_bytes(halves[1]);
    let l = values(b);
    if glyphs(l) != b {
        return None;
    }
    Some(pack(h) * 0x100000000 + pack(l))
}

// The values of eight digits; of a byte that is no digit, some number below 32.
fn values(w: u64) -> u64
    ensures { result ≡ values_of w }
{
    (w & 0x0f0f0f0f0f0f0f0f) + (w & 0x4040404040404040) / 64 * 9
}

// The digits of eight values, each of its low four bits. What writes digits (replay_output) calls it too.
pub fn glyphs(v: u64) -> u64
    ensures { result ≡ glyphs_of v }
{
    let d = v & 0x0f0f0f0f0f0f0f0f;
    d + 0x3030303030303030 + ((d + 0x0606060606060606) & 0x1010101010101010) / 16 * 39
}

// The number that eight values make, the first of them in front, each of its low four bits.
fn pack(v: u64) -> u64
    ensures { result ≡ pack_of v }
{
    let d = v & 0x0f0f0f0f0f0f0f0f;
    let pairs = (d * 16 + d / 256) & 0x00ff00ff00ff00ff;
    let fours = (pairs * 256 + pairs / 65536) & 0x0000ffff0000ffff;
    (fours * 65536 + fours / 0x100000000) % 0x100000000
}

// A byte as a lowercase hex digit. (`char::to_digit` takes capitals too.)
pub fn nibble(b: u8) -> Option<u64>
    ensures { result ≡ digit_in b }
{
    match b {
        b'0'..=b'9' => Some(u64::from(b - b'0')),
        b'a'..=b'f' => Some(u64::from(b - b'a' + 10)),
        _ => None,
    }
}

// One digit more behind a number, in 64 bits; of d its low four.
pub fn push(v: u64, d: u64) -> u64
    ensures { result ≡ push_of v d }
{
    v % 0x1000000000000000 * 16 + d % 16
}
