// A row of posts, as a line of the fixed list of calls holds it; docs/CALLS.md says how.
#![tactic(auto)]

ghost use Rattle.std.specs.Prelude.{◌<◌};

use scope::Post;
use std::array;

// Makes the row in a line's words. The first word given is how many posts were applied. (What it returns is in the list's own numbers:
// the library's are held against them, so they are not taken from it.)
pub fn posted(r: &mut [u64; 58], out: &mut [u64; 8], words: [u64; 8]) -> u64 {
    let posts = posts_of(&words);
    let n = words[1].min(64) as usize;
    let p = in_place_entry_posts::vcpu_post_row(r, &posts[..n]);
    out[0] = p.applied;
    if p.refusal == 0 {
        return 0x40;
    }
    p.refusal.wrapping_add(0x100)
}

// The 64 posts of the third word to the sixth. Each takes the four lowest bits that are left of its word.
fn posts_of(words: &[u64; 8]) -> [Post; 64] {
    array::from_fn(|i| post(words[2 + i / 16] >> (4 * (i % 16)) & 15))
}

// A post's four bits: three choose the vector, the highest is the level's highest.
fn post(bits: u64) -> Post
    requires { bits < 16 }
{
    let vectors = [
        0x8000_0000_0000_0001,
        0x8000_0000_0000_0005,
        9,
        0x8000_0000_0000_0009,
        5,
        0x8000_0000_0000_0002,
        0,
        0xFFFF_FFFF_FFFF_FFFF,
    ];
    let i = (bits % 8) as usize;
    Post {
        vector: vectors[i],
        level: bits / 8 * 0x8000_0000_0000_0000,
    }
}
