// Reads map.bin and ref.bin in the folder it is run in, and prints what the reader answers (paper 01, "The tie at the ridge").
#![tactic(auto)]

ghost use Rattle.std.specs.Prelude.{◌≤◌, length};
ghost use Rattle.openlr_show.specs.Made.{Made, Shown, greatest_text};

use answer_text::put_answer;
use console::{hand_over, load};
use model::limits::WORK_LENGTH;
use reader::read;

// How many bytes the buffers of a map and of the text have.
const LARGE: usize = 65_536;

// How many numbers the line buffer has.
const PRINTED_LINES: usize = 1_024;

// Puts what is printed for a map and a reference first into a buffer that holds any such text: how many bytes.
fn make_text(map: &[u8], reference: &[u8], text: &mut [u8]) -> usize
    requires { greatest_text ≤ length text.old }
    ensures { Made map.now reference.now text.new result }
{
    let mut work = [0; WORK_LENGTH];
    let mut lines = [0; PRINTED_LINES];
    let answer = read(map, reference, &mut work, &mut lines);
    put_answer(answer, &lines, text)
}

// Hands what is printed for a map and a reference to the system, whole and once: how many bytes it is known to have taken.
fn show(rt: &impl Print, map: &[u8], reference: &[u8]) -> usize
    ensures { Shown map.now reference.now result }
{
    let mut text = [0; LARGE];
    let length = make_text(map, reference, &mut text);
    hand_over(rt, &text[..length])
}

// A file that is longer than its buffer is cut, and still gets the answer of its whole contents: a map's bytes may be cut anywhere behind the first 46,095,
// a reference's anywhere behind the first 459 (`map_cut` and `reference_cut` in model/proofs/Cut.antt).
fn main(rt: HostRuntime) {
    let mut map = [0; LARGE];
    let mut reference = [0; 512];
    let map_length = load(&rt, b"map.bin", &mut map);
    let reference_length = load(&rt, b"ref.bin", &mut reference);
    show(&rt, &map[..map_length], &reference[..reference_length]);
}
