// The functions for messages that a C program calls (paper 02, W9 and W10). include/openlr.h has them for C: `Held` is `struct openlr_message` there, and `Part`
// is `struct openlr_part`.
ghost use Rattle.std.specs.Prelude.{◌≡◌};
ghost use Rattle.model.specs.MessageCall.{opening, closing};
ghost use Rattle.model.specs.HostMessage.{message_of, host_message, HostStartCall, host_part, HostAdds};
ghost use Rattle.host_message.specs.Held.{as_message, as_part};

use host_message::{Held, Part, add, begin, close, open_next, part_of};

// Starts a message for a map.
#[unsafe(no_mangle)]
pub extern "C" fn openlr_message_start(map: &[u8], buffer: &mut [u8]) -> Held
    ensures { HostStartCall map.now buffer.old (as_message result) buffer.new }
{
    begin(map, buffer)
}

// Opens a reference behind the last finished one.
#[unsafe(no_mangle)]
pub extern "C" fn openlr_message_open(message: Held) -> Held
    ensures { as_message result ≡ host_message (as_message message) (opening (message_of (as_message message))) }
{
    open_next(message)
}

// Adds bytes to the open reference.
#[unsafe(no_mangle)]
pub extern "C" fn openlr_message_add(message: Held, buffer: &mut [u8], portion: &[u8]) -> Held
    ensures { HostAdds (as_message message) buffer.old portion.now (as_message result) buffer.new }
{
    add(message, buffer, portion)
}

// Closes the open reference.
#[unsafe(no_mangle)]
pub extern "C" fn openlr_message_close(message: Held) -> Held
    ensures { as_message result ≡ host_message (as_message message) (closing (message_of (as_message message))) }
{
    close(message)
}

// Where reference `n` of a message stands.
#[unsafe(no_mangle)]
pub extern "C" fn openlr_message_reference(message: &[u8], n: u32) -> Part
    ensures { as_part result ≡ host_part n message.now }
{
    part_of(message, n)
}
