// Runs calls of the operations, one a line of standard input, and prints a line for what comes of each. A call is the number of the
// operation, then k, masks, the number of a tune or a card, a place or a width if it takes them, then its lists, each as its length and its values.
// What comes of it is the status, 0 or the refusal, then the numbers given back, then the lists that were lent to be filled.
// No contract can say what is read or written; of the input, at most 131,072 bytes are read.
#![tactic(auto)]

mod books;
mod code;
mod level_calls;
mod parse;
mod print;
mod tunes;

ghost use Rattle.cases.specs.Counts.{IsPrefixLen};

use parse::Words;
use std::io::Read;

fn run(out: &impl Print, words: &mut Words) {
    // The numbers of the operations stand here alone: an enum of them would say each once more.
    match words.number::<u32>() {
        1 => code::encode(out, words),
        2 => code::weigh(out, words),
        3 => code::syndrome(out, words),
        4 => code::decode(out, words),
        5 => tunes::open(out, words),
        6 => tunes::tune_body(out, words),
        7 => tunes::read_card(out, words),
        8 => tunes::total_delay(out, words),
        9 => tunes::damaged_card(out, words),
        10 => tunes::tune_at(out, words),
        11 => books::write_book(out, words),
        12 => books::book_size(out, words),
        13 => code::decode_dead(out, words),
        14 => level_calls::signed(out, words),
        15 => level_calls::symbol(out, words),
        16 => level_calls::levels(out, words),
        17 => level_calls::symbols(out, words),
        18 => level_calls::receive(out, words),
        19 => tunes::worst_run(out, words),
        _ => {},
    }
    let _ = out.println("");
}

// Reads until the input ends, a read fails or the buffer is full, and answers how many bytes were put at the start of the buffer. The library's
// loops over `read` want a heap, or an input whose length is known before.
fn read_full(from: &mut impl Read, buffer: &mut [u8]) -> usize
    ensures { IsPrefixLen result buffer.new }
{
    let mut end = 0;
    while end < buffer.len() {
        let got = from.read(&mut buffer[end..]).unwrap_or(0);
        if got == 0 {
            break;
        }
        end += got;
    }
    end
}

fn main(rt: HostRuntime) {
    let mut buffer = [0u8; 131072];
    let n = read_full(&mut rt.stdin(), &mut buffer);
    for line in buffer[..n].split_inclusive(|byte| *byte == b'\n') {
        run(&rt, &mut Words::new(line));
    }
}
