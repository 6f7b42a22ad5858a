// A line of the fixed list of calls: its words, whether it spells words, and the sum that it ends in. docs/CALLS.md says what
// they mean.
use crate::lines::{number, spells};

// The eight words of a line: the 16 digits of each, and behind them a space or the line's end.
pub fn words(line: &[u8]) -> [u64; 8] {
    let mut words = [0; 8];
    for (word, text) in words.iter_mut().zip(line.as_chunks::<17>().0) {
        *word = number(&text[..16]);
    }
    words
}

// Whether a line spells eight words.
pub fn spelled(line: &[u8], words: [u64; 8]) -> bool {
    let (texts, rest) = line.as_chunks::<17>();
    texts.len() == 8
        && rest.is_empty()
        && texts.iter().zip(words).enumerate().all(|(i, (text, word))| {
            spells(&text[..16], word) && text[16] == if i == 7 { b'\n' } else { b' ' }
        })
}

// The sum with every word of a part in it.
pub fn all(start: u64, part: &[u64]) -> u64 {
    part.iter().fold(start, |s, word| one(s, *word))
}

// The sum with one word in it: turned by 7 bits, the word XORed in, a constant added, and the high bits XORed onto the low.
fn one(s: u64, word: u64) -> u64 {
    let z = (s.rotate_left(7) ^ word).wrapping_add(0x9E37_79B9_7F4A_7C15);
    z ^ z >> 29
}
