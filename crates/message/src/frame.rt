// A reference behind its length, in the part of a buffer that starts where its length stands.
ghost use Rattle.std.specs.Prelude.{◌≡◌, ◌+◌, ◌≤◌, ◌<◌, length, take, drop};
ghost use Rattle.model.specs.Work.{placed};
ghost use Rattle.model.specs.Reference.{longest_reference};
ghost use Rattle.model.specs.Message.{longest_message, length_bytes};
ghost use Rattle.model.specs.MessageCall.{end_of, fits, so_far, extended};

use buffers::copy;
use model::limits::{LONGEST_MESSAGE, LONGEST_REFERENCE};

// The values of a group of seven bits: a length below this takes one byte, and one from here on two.
const GROUP: usize = 128;

// How many bytes the length `count` takes.
fn length_bytes(count: usize) -> usize
    requires { count ≤ longest_reference }
    ensures { (result ≡ length (length_bytes count)) × (result ≤ 2) }
{
    if count == 0 {
        return 0;
    }
    if count < GROUP {
        return 1;
    }
    2
}

// Where a message ends whose open reference has `count` bytes.
#[tactic(auto, unfolding(model::specs::MessageCall::end_of))]
pub fn end_of(finished: usize, count: usize) -> usize
    requires { (finished ≤ longest_message) × (count ≤ longest_reference) }
    ensures { result ≡ end_of finished count }
{
    finished + (length_bytes(count) + count)
}

// Whether an open reference may have `more` bytes after its `added` ones, in a buffer of `room` bytes. No sum is made before its parts are known to be small.
pub fn fitting(finished: usize, added: usize, more: usize, room: usize) -> bool
    ensures { result ≡ fits finished (added + more) room }
{
    if LONGEST_REFERENCE < added {
        return false;
    }
    if LONGEST_REFERENCE - added < more {
        return false;
    }
    if room < finished {
        return false;
    }
    if LONGEST_MESSAGE < finished {
        return false;
    }
    let end = end_of(finished, added + more);
    if room < end {
        return false;
    }
    end <= LONGEST_MESSAGE
}

// Puts the length `count` first.
fn put_length(part: &mut [u8], count: usize)
    requires { (0 < count) × (count ≤ longest_reference) × (length (length_bytes count) ≤ length part.old) }
    ensures { part.new ≡ placed (length_bytes count) part.old }
{
    if count < GROUP {
        part[0] = count as u8;
    } else {
        part[0] = (count % GROUP + GROUP) as u8;
        part[1] = (count / GROUP) as u8;
    }
}

// Moves `count` bytes from place 1 to place 2.
fn move_up(part: &mut [u8], count: usize)
    requires { count + 2 ≤ length part.old }
    ensures { (take count (drop 2 part.new) ≡ take count (drop 1 part.old))
        × (drop (count + 2) part.new ≡ drop (count + 2) part.old) }
{
    for i in (0..count).rev() {
        part[i + 2] = part[i + 1];
    }
}

// Has the bytes so far of an open reference stand where those of one with `count` bytes do: they move where the length takes its second byte.
fn make_room(part: &mut [u8], added: usize, count: usize)
    requires { (added < count) × (count ≤ longest_reference) × (length (length_bytes count) + count ≤ length part.old) }
    ensures { (take added (drop (length (length_bytes count)) part.new) ≡ so_far added part.old)
        × (drop (length (length_bytes count) + added) part.new ≡ drop (length (length_bytes count) + added) part.old) }
{
    if added < GROUP {
        if GROUP <= count {
            move_up(part, added);
        }
    }
}

// Puts `portion` behind the bytes so far of an open reference, and its new length before them.
pub fn extend(part: &mut [u8], added: usize, portion: &[u8])
    requires { (0 < length portion.now) × (added + length portion.now ≤ longest_reference)
        × (length (length_bytes (added + length portion.now)) + (added + length portion.now) ≤ length part.old) }
    ensures { part.new ≡ extended added part.old portion.now }
{
    let count = added + portion.len();
    make_room(part, added, count);
    let at = length_bytes(count) + added;
    copy(portion, &mut part[at..]);
    put_length(part, count);
}
