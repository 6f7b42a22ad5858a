// Runs the fixed list of calls in data/ on the entry that hosts call and counts the lines on which it gives something else.
// A line is a call's six words, what it returns, and the sum of what it gives and of the record after it, each of 16 hex digits;
// docs/CALLS.md says what they mean.
#![tactic(auto)]

use std::env::Env;
use std::fs::Files;
use std::io::Read;
use test_lines::calls;
use test_lines::files::open_list;
use test_lines::lists::compare;

// The first argument names the list; the second a list whose lines are all wrong, each in one byte, which shows that the comparison
// can say so.
fn main(rt: HostRuntime) {
    named(&rt, 1);
    named(&rt, 2);
}

// Runs the list that an argument names. (test_vectors does nearly the same, with the list's name before each text: one function for both
// would take the printing too, and be a public one that promises nothing.)
fn named<R: Env + Files + Print + Eprint>(rt: &R, argument: usize) {
    if let Some((_, file)) = open_list(rt, argument, &mut [0; 16]) {
        run(rt, file);
    }
}

// Runs the list from a record of zeros, and writes its lines and how many of them are wrong.
fn run<R: Print, F: Read + Drop>(rt: &R, list: F) {
    let mut r = [0; 58];
    let tally = compare(
        list,
        &mut [0; 136],
        |_, line| line_on(&mut r, line),
        |n| print(rt, "wrong line ", n),
    );
    print(rt, "lines ", tally.lines);
    print(rt, "wrong ", tally.wrong);
}

// Makes a line's call. The line must be spelled as its own six words and what the call gave are.
fn line_on(r: &mut [u64; 58], line: &[u8]) -> bool {
    let mut words = calls::words(line);
    let mut out = lent(words[0]);
    words[6] = made(r, &mut out, words);
    words[7] = sum(r, &out);
    calls::spelled(line, words)
}

// The words that a call is lent for its reply: what they hold is nobody's number. A call that takes none gives zeros.
fn lent(kind: u64) -> [u64; 8] {
    match kind {
        3 | 10 | 11 => [99; 8],
        _ => [0; 8],
    }
}

// The call: words_call's kinds; 0 writes a word of the record, 15 makes a row of posts. (The kinds are the list's own numbers: an enum
// of them would need this match again, and that of `lent`, from its names to the calls, behind one from the numbers to its names. So
// are 0x41, a value, and 0x101, invalid input: the library's are held against them, and they are not taken from it.)
fn made(r: &mut [u64; 58], out: &mut [u64; 8], words: [u64; 8]) -> u64 {
    let [kind, a, b, c, d, e, _, _] = words;
    match kind {
        0 => written(r, a, b),
        1 => in_place_entry_setup::vcpu_setup(r),
        2 => in_place_entry_setup::vcpu_set_entry(r, a),
        3 => in_place_entry_gprs::vcpu_get_gpr(r, a, out),
        4 => in_place_entry_gprs::vcpu_set_gpr(r, a, b),
        5 => in_place_entry_gprs::vcpu_set_return_value(r, a),
        6 => in_place_entry_setup::vcpu_set_nested_page_table(r, a, b, c),
        7 => in_place_entry_interrupts::vcpu_set_pending(r, a, b),
        8 => in_place_entry_interrupts::vcpu_latch_hvip(r, a),
        9 => in_place_entry_interrupts::vcpu_complete_ipi(r, a, b),
        10 => in_place_entry_trap::vcpu_start(r, &[a, b, c, d, e], out),
        11 => in_place_entry_trap::vcpu_answer(r, &[a, b, c], out),
        12 => in_place_entry_load::vcpu_complete_load(r, a),
        13 => printed(r, out, a),
        14 => in_place_entry_setup::vcpu_new(r, a, b),
        15 => test_call_rows::posted(r, out, words),
        _ => 0x101,
    }
}

fn printed(r: &[u64; 58], out: &mut [u64; 8], length: u64) -> u64 {
    out[0] = in_place_entry_load::vcpu_to_print(r, length);
    0x41
}

// Writes one of the record's words, if it has one of that number.
fn written(r: &mut [u64; 58], i: u64, n: u64) -> u64 {
    if let Some(word) = r.get_mut(i as usize) {
        *word = n;
    }
    0
}

// The sum of what was given and of the record.
fn sum(r: &[u64; 58], out: &[u64; 8]) -> u64 {
    calls::all(calls::all(0, out), r)
}

fn print<R: Print>(rt: &R, what: &str, n: u32) {
    let _ = println!(rt; "{what}{n}");
}
