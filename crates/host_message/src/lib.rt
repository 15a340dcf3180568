// Messages as a C host holds them: numbers of 32 bits by value (paper 02, W9 and W10). The crate openlr has the functions that it calls.
#![tactic(auto)]

ghost use Rattle.std.specs.Prelude.{◌≡◌, length};
ghost use Rattle.model.specs.MessageCall.{opening, closing};
ghost use Rattle.model.specs.HostMessage.{HostMessage, message_of, host_message, HostStartCall, host_part, HostAdds};
ghost use Rattle.host_message.specs.Held.{as_message, as_part, Narrow, NarrowAnswer};

use message::{add_bytes, close_reference, open_reference};
use message_list::place;
use message_start::start;
use model::limits::WORK_LENGTH;
use model::{Message, MessageAnswer, Refusal, number_of};

// What a host holds of a message; `struct openlr_message` in C. `refusal` is that of the call that returned it, and no call looks at it.
// C has numbers for the refusal and for whether a reference is open.
#[repr(C)]
#[derive(Clone, Copy)]
pub struct Held {
    pub refusal: u32,
    pub bytes: u32,
    pub is_open: u32,
    pub added: u32,
}

// Where a part of a message starts, and its count of bytes; `struct openlr_part` in C.
#[repr(C)]
#[derive(Clone, Copy)]
pub struct Part {
    pub start: u32,
    pub bytes: u32,
}

// The message that a host means.
impl From<Held> for Message {
    #[tactic(auto, unfolding(model::specs::HostMessage::message_of, crate::specs::Held::as_message))]
    fn from(held: Held) -> Message
        ensures { (result ≡ message_of (as_message held)) × Narrow result }
    {
        let finished = held.bytes as usize;
        if held.is_open == 0 {
            return Message::Closed(finished);
        }
        Message::Open(finished, held.added as usize)
    }
}

// What a host holds of a message. `From` would have to hold any message, and one of larger numbers does not fit (`Narrow`).
#[tactic(auto, unfolding(model::specs::HostMessage::host_message, crate::specs::Held::as_message))]
fn holding(m: Message) -> Held
    requires { Narrow m }
    ensures { (given : HostMessage) → as_message result ≡ host_message given (Ok m) }
{
    match m {
        Message::Closed(finished) => Held {
            refusal: 0,
            bytes: finished as u32,
            is_open: 0,
            added: 0,
        },
        Message::Open(finished, added) => Held {
            refusal: 0,
            bytes: finished as u32,
            is_open: 1,
            added: added as u32,
        },
    }
}

// What a host gets where a call is refused: the number, and the rest as it was given, so that it takes two values and is no `From`.
#[tactic(auto, unfolding(model::specs::HostMessage::host_message, crate::specs::Held::as_message))]
fn refused(given: Held, why: Refusal) -> Held
    ensures { as_message result ≡ host_message (as_message given) (Err why) }
{
    let number = number_of(why);
    Held {
        refusal: number,
        ..given
    }
}

// What a host gets for an answer.
fn told(given: Held, answer: MessageAnswer) -> Held
    requires { NarrowAnswer answer }
    ensures { as_message result ≡ host_message (as_message given) answer }
{
    match answer {
        Ok(m) => holding(m),
        Err(why) => refused(given, why),
    }
}

// Starts a message for a map, with a work area of its own. A refusal returns a message of zeros, since none is given.
pub fn begin(map: &[u8], buffer: &mut [u8]) -> Held
    ensures { HostStartCall map.now buffer.old (as_message result) buffer.new }
{
    let mut work = [0u32; WORK_LENGTH];
    let none = Held {
        refusal: 0,
        bytes: 0,
        is_open: 0,
        added: 0,
    };
    told(none, start(map, &mut work, buffer))
}

// Opens a reference behind the last finished one.
pub fn open_next(given: Held) -> Held
    ensures { as_message result ≡ host_message (as_message given) (opening (message_of (as_message given))) }
{
    told(given, open_reference(Message::from(given)))
}

// Adds bytes to the open reference.
pub fn add(given: Held, buffer: &mut [u8], portion: &[u8]) -> Held
    ensures { HostAdds (as_message given) buffer.old portion.now (as_message result) buffer.new }
{
    told(given, add_bytes(Message::from(given), buffer, portion))
}

// Closes the open reference.
pub fn close(given: Held) -> Held
    ensures { as_message result ≡ host_message (as_message given) (closing (message_of (as_message given))) }
{
    told(given, close_reference(Message::from(given)))
}

// Where reference `n` of a message stands.
pub fn part_of(message: &[u8], n: u32) -> Part
    ensures { as_part result ≡ host_part n message.now }
{
    let part = place(message, n as usize);
    Part {
        start: part.start as u32,
        bytes: (part.end - part.start) as u32,
    }
}
