// Starting a message for a map (paper 02, W10): `start`, and its parts in the order in which they are asked.
#![tactic(auto)]

ghost use Rattle.std.specs.Prelude.{◌≡◌, ◌≤◌, ◌<◌, ◌^◌, length};
ghost use Rattle.model.specs.Map.{decode};
ghost use Rattle.model.specs.Work.{work_length};
ghost use Rattle.model.specs.Opening.{OnMap};
ghost use Rattle.model.specs.MessageStart.{StartOutcome, start_on, StartAnswered, StartCall};

use depot_map::read_map;
use front::put_front;
use model::{Message, MessageAnswer, Refusal};
use work_area::step::in_work_area;

// The answer for bytes that are a map.
fn on_map(map: &[u8], buffer: &mut [u8]) -> MessageAnswer
    requires { length map.now < 2 ^ 32 }
    ensures { StartAnswered (λ o. o ≡ start_on map.now (length buffer.old)) buffer.old buffer.new result }
{
    match put_front(map, buffer) {
        Some(count) => Ok(Message::Closed(count)),
        None => Err(Refusal::MessageFull),
    }
}

// Starts a message for a map: the front stands first in the buffer, whatever stood there. The work area needs 14,336 numbers. They are 0 afterwards.
#[tactic(auto, using(crate::proofs::Starts::area_short, model::proofs::Cleared::cleared_short))]
pub fn start(map: &[u8], work: &mut [u32], buffer: &mut [u8]) -> MessageAnswer
    ensures { StartCall map.now work.old buffer.old result work.new buffer.new }
{
    in_work_area(
        work,
        buffer,
        |area, out|
            requires { length area.old ≡ work_length }
            ensures { StartAnswered (OnMap StartOutcome.refused (λ m. λ o. o ≡ start_on map.entry.now (length out.old)) (decode map.entry.now))
                out.old out.new result }
        {
            read_map(map, area)?;
            on_map(map, out)
        },
    )
}
