// What the programs share: the bytes of a file, and text handed to the system.
#![tactic(auto)]

ghost use Rattle.std.specs.Prelude.{◌≡◌, min, length};
ghost use Rattle.std.specs.Counts.{IsPrefixLen};
ghost use Rattle.model.specs.Text.{numbered};
ghost use Rattle.console.specs.Handed.{Handed};

use answer_text::put_number;
use std::fs::File;
use std::io::Read;
use std::rt::Files;

// Reads until the buffer is full, the input ends or a read fails: how many bytes. A read takes several bytes at a time, so no range counts them.
fn read_full(from: &mut impl Read, buffer: &mut [u8]) -> usize
    ensures { IsPrefixLen result buffer.new }
{
    let mut done = 0;
    while done < buffer.len() {
        let n = from.read(&mut buffer[done..]).unwrap_or(0);
        if n == 0 {
            break;
        }
        done += n;
    }
    done
}

// The bytes of a file, first in the buffer, as many as fit. A missing file counts as empty, and a path that is not text names no file.
pub fn load(rt: &impl Files, path: &[u8], buffer: &mut [u8]) -> usize
    ensures { IsPrefixLen result buffer.new }
{
    let Ok(name) = str::from_utf8(path) else {
        return 0;
    };
    match File::open(rt, name) {
        Ok(mut file) => read_full(&mut file, buffer),
        Err(_) => 0,
    }
}

// Hands bytes to the system for printing, all of them, and answers how many it is known to have taken: all, or 0 where it failed on the way.
// What is left outside the promises is here and nowhere else: that the system prints the bytes that it is handed. `write_all` goes on behind a short
// write until all bytes are taken or a write fails.
pub fn hand_over(rt: &impl Print, bytes: &[u8]) -> usize
    ensures { Handed bytes.now result }
{
    match rt.write_all(bytes) {
        Ok(()) => bytes.len(),
        Err(_) => 0,
    }
}

// How many bytes of a word and a number are printed.
const PRINTED: usize = 128;

// Hands over a word and a number behind it, cut where they are too long: how many bytes.
pub fn print(rt: &impl Print, word: &[u8], number: u64) -> usize
    ensures { result ≡ min (length (numbered word.now number)) 128 }
{
    let mut text = [0; PRINTED];
    let end = put_number(word, number, &mut text, 0);
    hand_over(rt, &text[..end]);
    end
}

// Hands over each of the numbers, with the word before it: how many numbers.
pub fn print_each(rt: &impl Print, word: &[u8], numbers: &[u32]) -> usize
    ensures { result ≡ length numbers.now }
{
    for number in numbers {
        print(rt, word, u64::from(*number));
    }
    numbers.len()
}
