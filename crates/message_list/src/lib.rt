// The references of a message's bytes, as a box receives them (paper 02, W9), behind the front (W10).
#![tactic(auto)]

ghost use Rattle.std.specs.Prelude.{◌≡◌, ℕ, ◌≤◌, min, length, drop};
ghost use Rattle.model.specs.Front.{front_of};
ghost use Rattle.model.specs.Message.{longest_message, of_length, next, reference_number, start_of_number, end_of_number};
ghost use Rattle.model.specs.Front as definitions;
ghost use Rattle.message_list.specs.Entry.{EntryIs};

use front::read_front;
use model::limits::{LONGEST_MESSAGE, LONGEST_REFERENCE};

// The values of a group of seven bits. A byte from here on says that another group follows.
const GROUP: usize = 128;

// A last group of this adds nothing to a length, which is then not in its shortest form.
const PADDING: usize = 0;

// The least length of a reference.
const LEAST_LENGTH: usize = 1;

// A part of a message: where it starts, and where it ends.
#[derive(Clone, Copy)]
pub struct Part {
    pub start: usize,
    pub end: usize,
}

impl Part {
    // The empty part at byte `at`.
    fn empty(at: usize) -> Part
        ensures { (result.start ≡ at) × (result.end ≡ at) }
    {
        Part { start: at, end: at }
    }
}

// The reference of `count` bytes from byte `start` on, if that is the length of one and there are so many.
fn entry_of(message: &[u8], start: usize, count: usize) -> Option<Part>
    requires { start ≤ length message.now }
    ensures { EntryIs message.now (of_length count (drop start message.now)) result }
{
    if count < LEAST_LENGTH || LONGEST_REFERENCE < count {
        return None;
    }
    if message.len() - start < count {
        return None;
    }
    Some(Part {
        start,
        end: start + count,
    })
}

// The reference at byte `at`, if one that counts stands there. A length has one byte or two, since a number of more bytes is over 459.
fn entry_at(message: &[u8], at: usize) -> Option<Part>
    ensures { EntryIs message.now (next (drop at message.now)) result }
{
    let first = usize::from(*message.get(at)?);
    if first < GROUP {
        return entry_of(message, at + 1, first);
    }
    let second = usize::from(*message.get(at + 1)?);
    if second == PADDING || GROUP <= second {
        return None;
    }
    entry_of(message, at + 2, first - GROUP + second * GROUP)
}

// How many references a walk to number `n` passes at most. Each takes a byte at least, and so they are no more than the bytes, however great the number.
fn most_turns(message: &[u8], n: usize) -> usize
    ensures { result ≡ min n (length message.now) }
{
    n.min(message.len())
}

// Where reference `n` of those from byte `behind` on stands, in a message of at most 16,384 bytes.
fn place_behind(message: &[u8], behind: usize, n: usize) -> Part
    requires message_len_bound { (length message.now ≤ longest_message) × (behind ≤ length message.now) }
    requires by_index { (count sum : ℕ) × (front_of message.now ≡ definitions.front count sum (drop behind message.now)) }
    ensures { (result.start ≡ start_of_number n message.now) × (result.end ≡ end_of_number n message.now) }
{
    let mut at = behind;
    for i in 0..most_turns(message, n) {
        let Some(part) = entry_at(message, at) else {
            return Part::empty(at);
        };
        at = part.end;
    }
    entry_at(message, at).unwrap_or(Part::empty(at))
}

// Where reference `n` stands in a message of at most 16,384 bytes. A front that cannot be read stops the list at the first byte.
fn place_in(message: &[u8], n: usize) -> Part
    requires { length message.now ≤ longest_message }
    ensures { (result.start ≡ start_of_number n message.now) × (result.end ≡ end_of_number n message.now) }
{
    match read_front(message) {
        Some(front) => place_behind(message, front.behind, n),
        None => Part::empty(0),
    }
}

// Where reference `n` stands in a message. An empty part, where there is none, lies where the list stops.
pub fn place(message: &[u8], n: usize) -> Part
    ensures { (result.start ≡ start_of_number n message.now) × (result.end ≡ end_of_number n message.now) }
{
    if LONGEST_MESSAGE < message.len() {
        return place_in(&message[..LONGEST_MESSAGE], n);
    }
    place_in(message, n)
}

// Reference `n` of a message, as a part of it; an empty part where there is none.
pub fn received(message: &[u8], n: usize) -> &[u8]
    ensures { result.now ≡ reference_number n message.now }
{
    let part = place(message, n);
    &message[part.start..part.end]
}
