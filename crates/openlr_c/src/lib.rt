// The archive for C: the functions of `openlr` under their own names, each with its contract again. include/openlr.h has them for C. A library exports nothing
// to C, so this crate calls it and does nothing else.
#![tactic(auto)]

ghost use Rattle.std.specs.Prelude.{◌≡◌};
ghost use Rattle.model.specs.Host.{HostReadCall, HostWriteCall, HostPointReadCall, HostPointWriteCall};
ghost use Rattle.model.specs.PointAlong.{point_given};
ghost use Rattle.model.specs.MessageCall.{opening, closing};
ghost use Rattle.model.specs.HostMessage.{message_of, host_message, HostStartCall, host_part, HostAdds};
ghost use Rattle.model.specs.OfMessage.{HostReadOfMessageCall, HostPointReadOfMessageCall};
ghost use Rattle.openlr.specs.Host.{as_read, as_written, as_point, as_point_written};
ghost use Rattle.host_message.specs.Held.{as_message, as_part};

use host_message::{Held, Part};
use openlr::point::{Point, PointWritten};
use openlr::{Lines, Written};

// Reads a reference on a map.
#[unsafe(no_mangle)]
pub extern "C" fn openlr_read(map: &[u8], reference: &[u8], lines: &mut [u8]) -> Lines
    ensures { HostReadCall map.now reference.now lines.old (as_read result) lines.new }
{
    openlr::openlr_read(map, reference, lines)
}

// Writes a reference for a stretch on a map, by `tests` leg tests at most. `stretch` has the line numbers, four bytes each, low byte first.
#[unsafe(no_mangle)]
pub extern "C" fn openlr_write(
    map: &[u8],
    stretch: &[u8],
    pos: u32,
    neg: u32,
    tests: u32,
    bytes: &mut [u8],
) -> Written
    ensures { HostWriteCall map.now stretch.now pos neg tests bytes.old (as_written result) bytes.new }
{
    openlr::openlr_write(map, stretch, pos, neg, tests, bytes)
}

// Reads a point along a line on a map.
#[unsafe(no_mangle)]
pub extern "C" fn openlr_read_point(map: &[u8], reference: &[u8], lines: &mut [u8]) -> Point
    ensures { HostPointReadCall map.now reference.now lines.old (as_point result) lines.new }
{
    openlr::point::openlr_read_point(map, reference, lines)
}

// Writes a reference for a point along a line of a map.
#[unsafe(no_mangle)]
pub extern "C" fn openlr_write_point(
    map: &[u8],
    line: u32,
    offset: u32,
    orientation: u32,
    side: u32,
    bytes: &mut [u8],
) -> PointWritten
    ensures { HostPointWriteCall map.now (point_given line offset orientation side) bytes.old (as_point_written result) bytes.new }
{
    openlr::point::openlr_write_point(map, line, offset, orientation, side, bytes)
}

// Starts a message for a map.
#[unsafe(no_mangle)]
pub extern "C" fn openlr_message_start(map: &[u8], buffer: &mut [u8]) -> Held
    ensures { HostStartCall map.now buffer.old (as_message result) buffer.new }
{
    openlr::messages::openlr_message_start(map, buffer)
}

// Opens a reference behind the last finished one.
#[unsafe(no_mangle)]
pub extern "C" fn openlr_message_open(message: Held) -> Held
    ensures { as_message result ≡ host_message (as_message message) (opening (message_of (as_message message))) }
{
    openlr::messages::openlr_message_open(message)
}

// Adds bytes to the open reference.
#[unsafe(no_mangle)]
pub extern "C" fn openlr_message_add(message: Held, buffer: &mut [u8], portion: &[u8]) -> Held
    ensures { HostAdds (as_message message) buffer.old portion.now (as_message result) buffer.new }
{
    openlr::messages::openlr_message_add(message, buffer, portion)
}

// Closes the open reference.
#[unsafe(no_mangle)]
pub extern "C" fn openlr_message_close(message: Held) -> Held
    ensures { as_message result ≡ host_message (as_message message) (closing (message_of (as_message message))) }
{
    openlr::messages::openlr_message_close(message)
}

// Where reference `n` of a message stands.
#[unsafe(no_mangle)]
pub extern "C" fn openlr_message_reference(message: &[u8], n: u32) -> Part
    ensures { as_part result ≡ host_part n message.now }
{
    openlr::messages::openlr_message_reference(message, n)
}

// Reads a reference out of a message on a map.
#[unsafe(no_mangle)]
pub extern "C" fn openlr_read_of_message(
    map: &[u8],
    message: &[u8],
    reference: &[u8],
    lines: &mut [u8],
) -> Lines
    ensures { HostReadOfMessageCall map.now message.now reference.now lines.old (as_read result) lines.new }
{
    openlr::openlr_read_of_message(map, message, reference, lines)
}

// Reads a point along a line out of a message on a map.
#[unsafe(no_mangle)]
pub extern "C" fn openlr_read_point_of_message(
    map: &[u8],
    message: &[u8],
    reference: &[u8],
    lines: &mut [u8],
) -> Point
    ensures { HostPointReadOfMessageCall map.now message.now reference.now lines.old (as_point result) lines.new }
{
    openlr::point::openlr_read_point_of_message(map, message, reference, lines)
}
