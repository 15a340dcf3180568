// Messages: several references in one lent buffer, each behind its length (paper 02, W9). What is known of a message beside its buffer is a `Message`, by value;
// the crate message_start begins one.
#![tactic(auto)]

ghost use Rattle.std.specs.Prelude.{◌≡◌};
ghost use Rattle.model.specs.MessageCall.{finished_bytes, opening, closing, Adds, finished_number};

use crate::frame::{end_of, extend, fitting};
use message_list::received;
use model::limits::LONGEST_MESSAGE;
use model::{Message, MessageAnswer, Refusal};

mod frame;

// Opens a reference behind the last finished one. Nothing is written.
#[tactic(auto, unfolding(model::specs::MessageCall::opening))]
pub fn open_reference(m: Message) -> MessageAnswer
    ensures { result ≡ opening m }
{
    match m {
        Message::Closed(finished) => Ok(Message::Open(finished, 0)),
        Message::Open(_, _) => Err(Refusal::MessageOrder),
    }
}

// Adds bytes to the open reference.
pub fn add_bytes(m: Message, buffer: &mut [u8], portion: &[u8]) -> MessageAnswer
    ensures { Adds m buffer.old portion.now result buffer.new }
{
    let Message::Open(finished, added) = m else {
        return Err(Refusal::MessageOrder);
    };
    if portion.len() == 0 {
        return Ok(Message::Open(finished, added));
    }
    if !fitting(finished, added, portion.len(), buffer.len()) {
        return Err(Refusal::MessageFull);
    }
    extend(&mut buffer[finished..], added, portion);
    Ok(Message::Open(finished, added + portion.len()))
}

// Closes the open reference. The answer has the message's count of bytes. Nothing is written.
pub fn close_reference(m: Message) -> MessageAnswer
    ensures { result ≡ closing m }
{
    let Message::Open(finished, added) = m else {
        return Err(Refusal::MessageOrder);
    };
    if added == 0 {
        return Err(Refusal::MessageOrder);
    }
    if !fitting(finished, 0, added, LONGEST_MESSAGE) {
        return Err(Refusal::MessageFull);
    }
    Ok(Message::Closed(end_of(finished, added)))
}

// How many bytes of a message are finished.
fn finished_bytes(m: Message) -> usize
    ensures { result ≡ finished_bytes m }
{
    match m {
        Message::Closed(finished) => finished,
        Message::Open(finished, _) => finished,
    }
}

// Finished reference `n` of a message that is being written, as a part of its buffer; an empty part where there is none.
pub fn reference(m: Message, buffer: &[u8], n: usize) -> &[u8]
    ensures { result.now ≡ finished_number m buffer.now n }
{
    let finished = finished_bytes(m);
    if buffer.len() < finished {
        return received(buffer, n);
    }
    received(&buffer[..finished], n)
}
