// The reader of references (paper 01): `read`, and its parts in the order in which they are asked; `read_of_message` for those out of a message (paper 02, W10).
#![tactic(auto)]

ghost use Rattle.std.specs.Prelude.{◌≡◌, ℕ, ◌≤◌, ◌<◌, List, length, take};
ghost use Rattle.model.specs.Map.{Map, decode};
ghost use Rattle.model.specs.Reference.{parse};
ghost use Rattle.model.specs.Reading.{joined};
ghost use Rattle.model.specs.Outcome.{LegsRead, every, ReadOutcome, ReadOn, ReadParsed, ReadMap};
ghost use Rattle.model.specs.Locate.{located};
ghost use Rattle.model.specs.Work.{work_length, placed};
ghost use Rattle.model.specs.Opening.{OnMap};
ghost use Rattle.model.specs.Front.{same_map};
ghost use Rattle.model.specs.OfMessage.{OnFront, ReadOfMessageCall};
ghost use Rattle.model.specs.Call.{ReadAnswered, ReadCall};
ghost use Rattle.search_cells.specs.Area.{Set};
ghost use Rattle.references.specs.Formed.{reference_in, legs_in};
ghost use Rattle.reference_legs.specs.Legs.{PlacesIn};
ghost use Rattle.model.specs.Locate as definitions;

use buffers::copy;
use ending::answer;
use front::same_map;
use model::{ReadAnswer, Refusal};
use opening::{Opened, open_map};
use reference_legs::read_legs;
use references::points::locate;
use references::reference::Reference;
use work_area::step::in_work_area;

mod ending;

// How many lines are kept until all is asked. The lines of a longer reading are found a second time.
const KEPT_LINES: usize = 2_304;

// Writes the `count` lines of a reference that is accepted.
fn put_lines(
    reference: Reference,
    places: &[u32],
    work: &mut [u32],
    lines: usize,
    kept: &[u32],
    count: usize,
    out: &mut [u32],
)
    requires points_lt_places { (reference.points < length places.now) × (count ≤ length out.old) }
    requires set { (m : Map) × Set m lines work.old × PlacesIn m reference.points places.now }
    ensures { (m : Map) → Set m lines work.old → PlacesIn m reference.entry.points places.now → (lists : List (List ℕ))
        → LegsRead m 0 (legs_in reference.entry places.now) (every lists) → length (joined lists) ≡ count
        → (count ≤ length kept.now → take count kept.now ≡ joined lists)
        → out.new ≡ placed (joined lists) out.old }
{
    if count <= kept.len() {
        copy(&kept[..count], out);
        return;
    }
    // The same legs have been read once, so all of them are read again.
    let _ = read_legs(reference, places, work, lines, out);
}

// The answer for a reference whose points' nodes are known.
fn on_places(
    reference: Reference,
    places: &[u32],
    work: &mut [u32],
    lines: usize,
    out: &mut [u32],
) -> ReadAnswer
    requires points_lt_places { reference.points < length places.now }
    requires set { (m : Map) × Set m lines work.old × PlacesIn m reference.points places.now }
    ensures { (m : Map) → Set m lines work.old → PlacesIn m reference.entry.points places.now
        → definitions.locate m (reference_in reference.entry) ≡ located (legs_in reference.entry places.now)
        → ReadAnswered (ReadOn m (reference_in reference.entry) (length out.old)) out.old out.new result }
{
    let mut kept = [0; KEPT_LINES];
    let sums = read_legs(reference, places, work, lines, &mut kept)?;
    let found = answer(reference, sums, out.len())?;
    put_lines(reference, places, work, lines, &kept, found.count, out);
    Ok(found)
}

// The answer for bytes that are a reference.
pub fn on_points(
    reference: Reference,
    work: &mut [u32],
    opened: Opened,
    out: &mut [u32],
) -> ReadAnswer
    requires { (m : Map) × Set m opened.lines work.old × (length m.nodes ≡ opened.nodes) }
    ensures { (m : Map) → Set m opened.lines work.old → length m.nodes ≡ opened.nodes
        → ReadAnswered (ReadOn m (reference_in reference.entry) (length out.old)) out.old out.new result }
{
    let mut places = [0; Reference::MOST_POINTS];
    locate(reference, work, opened.nodes, &mut places)?;
    on_places(reference, &places, work, opened.lines, out)
}

// The answer on a map that is ready in the work area.
fn on_map(reference: &[u8], work: &mut [u32], opened: Opened, out: &mut [u32]) -> ReadAnswer
    requires { (m : Map) × Set m opened.lines work.old × (length m.nodes ≡ opened.nodes) }
    ensures { (m : Map) → Set m opened.lines work.old → length m.nodes ≡ opened.nodes
        → ReadAnswered (ReadParsed m (parse reference.now) (length out.old)) out.old out.new result }
{
    let sound = Reference::of(reference)?;
    on_points(sound, work, opened, out)
}

// Reads a reference on a map. An answer that it is read has the count of lines, which stand first in `lines`, and the spans of the two offsets.
// The work area needs 14,336 numbers. They are 0 afterwards.
pub fn read(map: &[u8], reference: &[u8], work: &mut [u32], lines: &mut [u32]) -> ReadAnswer
    ensures { ReadCall map.now reference.now work.old lines.old result work.new lines.new }
{
    in_work_area(
        work,
        lines,
        |area, out|
            requires { length area.old ≡ work_length }
            ensures { ReadAnswered (ReadMap (decode map.entry.now) reference.entry.now (length out.old))
                out.old out.new result }
        {
            let opened = open_map(map, area)?;
            on_map(reference, area, opened, out)
        },
    )
}

// The answer on a map that is ready in the work area, for a reference out of a message: whether the message is of that map is asked first.
fn on_front(
    map: &[u8],
    message: &[u8],
    reference: &[u8],
    work: &mut [u32],
    opened: Opened,
    out: &mut [u32],
) -> ReadAnswer
    requires { (m : Map) × Set m opened.lines work.old × (length m.nodes ≡ opened.nodes) }
    ensures { (m : Map) → Set m opened.lines work.old → length m.nodes ≡ opened.nodes
        → ReadAnswered (OnFront ReadOutcome.refused (ReadParsed m (parse reference.now) (length out.old))
        (same_map map.now message.now)) out.old out.new result }
{
    if !same_map(map, message) {
        return Err(Refusal::OtherMap);
    }
    on_map(reference, work, opened, out)
}

// Reads a reference out of a message on a map: as `read`, once the message's front is that of the map. Nothing else is looked at in the message.
pub fn read_of_message(
    map: &[u8],
    message: &[u8],
    reference: &[u8],
    work: &mut [u32],
    lines: &mut [u32],
) -> ReadAnswer
    ensures { ReadOfMessageCall map.now message.now reference.now work.old lines.old result
        work.new lines.new }
{
    in_work_area(
        work,
        lines,
        |area, out|
            requires { length area.old ≡ work_length }
            ensures { ReadAnswered (OnMap ReadOutcome.refused (λ m. OnFront ReadOutcome.refused
                (ReadParsed m (parse reference.entry.now) (length out.old)) (same_map map.entry.now message.entry.now))
                (decode map.entry.now)) out.old out.new result }
        {
            let opened = open_map(map, area)?;
            on_front(map, message, reference, area, opened, out)
        },
    )
}
