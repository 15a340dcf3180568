// The legs of a reference read one after another, and their lines written in order.
#![tactic(auto)]

ghost use Rattle.std.specs.Prelude.{◌≡◌, ℕ, ◌*◌, ◌≤◌, ◌<◌, length};
ghost use Rattle.model.specs.Map.{Map};
ghost use Rattle.model.specs.Lines.{Connected};
ghost use Rattle.model.specs.Reading.{greatest_leg_length};
ghost use Rattle.work_area.specs.Area.{Held};
ghost use Rattle.search_cells.specs.Area.{lines_from, Set};
ghost use Rattle.references.specs.Formed.{legs_in};
ghost use Rattle.fields.specs.Leg.{leg_in};
ghost use Rattle.legs.specs.Verdict.{Judged};
ghost use Rattle.reference_legs.specs.Legs.{barred_with, sums_with, Put, Inserted, PlacesIn, LegsDone};
ghost use Rattle.model.specs.Reading as definitions;

use banned_turns::banned;
use fields::leg::{Leg, Reading, Verdict};
use legs::first_lines::both;
use model::Refusal;
use references::leg::leg_at;
use references::reference::Reference;
use termini::{first_terminus, next_terminus, read_terminus};
use ways::write_lines;

pub mod termini;

// Of the legs that are read: how many lines they have, how long they are together, and how long the first and the last of them are; the line
// that the last of them arrives by, and whether a banned turn stands where two of them meet.
#[derive(Clone, Copy, Default)]
pub struct Sums {
    pub count: usize,
    pub length: u32,
    pub first: u32,
    pub last: u32,
    pub arrives: usize,
    pub barred: bool,
}

// Whether a banned turn stands where two legs meet, once leg `k` is one of them.
fn barred_with(work: &[u32], lines: usize, sums: Sums, k: usize, reading: Reading) -> bool
    requires first_lt_lines { reading.first < lines }
    requires held { (m : Map) × Held work.now lines m }
    ensures { (m : Map) → Held work.now lines m → result ≡ barred_with m sums k reading }
{
    if sums.barred {
        return true;
    }
    if k == 0 {
        return false;
    }
    banned(work, lines, sums.arrives, reading.first)
}

// The sums with leg `k`, the next one.
fn with_leg(sums: Sums, k: usize, reading: Reading, barred: bool) -> Sums
    requires k_bound { (k < 64) × (sums.count ≤ greatest_leg_length * k) × (sums.length ≤ greatest_leg_length * k) }
    requires count_le_greatest_leg_length { (reading.count ≤ greatest_leg_length) × (reading.length ≤ greatest_leg_length) }
    ensures { result ≡ sums_with sums k reading barred }
{
    let first = if k == 0 { reading.length } else { sums.first };
    Sums {
        count: sums.count + reading.count,
        length: sums.length + reading.length,
        first,
        last: reading.length,
        arrives: reading.last,
        barred,
    }
}

// Writes the lines of a reading into `out`, from its number `from` on: where there is exactly one, and room for it.
fn put_reading(work: &[u32], found: Verdict, out: &mut [u32], from: usize)
    requires { (m : Map) × (lines : ℕ) × Held work.now lines m
        × ((r : Reading) → found ≡ Verdict.One r → Connected m (lines_from work.now r.first r.count)) }
    ensures { Put work.now from out.old out.new found }
{
    let Verdict::One(reading) = found else {
        return;
    };
    let room = out.len();
    if room < from || room - from < reading.count {
        return;
    }
    write_lines(work, reading.first, &mut out[from..from + reading.count]);
}

// Reads every leg between the nodes in `places`, up to the first without exactly one reading: that is refusal 17 or 18. The lines of the legs stand in
// `out` as long as there is room.
pub fn read_legs(
    reference: Reference,
    places: &[u32],
    work: &mut [u32],
    lines: usize,
    out: &mut [u32],
) -> Result<Sums, Refusal>
    requires points_lt_places { reference.points < length places.now }
    requires set { (m : Map) × Set m lines work.old × PlacesIn m reference.points places.now }
    ensures { (m : Map) → Set m lines work.old → PlacesIn m reference.entry.points places.now
        → LegsDone m lines (legs_in reference.entry places.now) work.new out.old out.new result }
{
    let mut sums = Sums::default();
    'legs: {
        for k in 0..reference.points {
            let leg = leg_at(reference, places, k);
            let mut found = Verdict::Unread;
            let mut at = first_terminus(work, lines, leg);
            while 0 < at {
                let more = read_terminus(work, lines, at, leg);
                put_reading(work, more, out, sums.count);
                found = both(found, more);
                if let Verdict::Several = found {
                    break 'legs Err(Refusal::SeveralReadings(k as u32));
                }
                at = next_terminus(work, lines, at, leg);
            }
            let Verdict::One(reading) = found else {
                break 'legs Err(Refusal::NoReading(k as u32));
            };
            let barred = barred_with(work, lines, sums, k, reading);
            sums = with_leg(sums, k, reading, barred);
        }
        Ok(sums)
    }
}
