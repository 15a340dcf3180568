// The binary line example of the white paper (13.1.3), field by field. From the bytes of its Tables 75 to 90 it prints what the reader takes from them, as
// Tables 72, 92 and 93 put it; then the fields that the values of Tables 72 to 74 give. The file stdout has what the tables print.
#![tactic(auto)]

ghost use Rattle.std.specs.Prelude.{◌<◌};

use buffers::bytes::{at2, at3};
use console::{hand_over, load, print};
use fields::coordinate::{latitude_code, longitude_code, longitude_sum, moved};
use fields::leg::{Attributes, distance};
use fields::offset::offset_byte;
use fields::sector::sector;
use model::limits::{DISTANCE_STEP, STEP_ADDED};
use model::number_of;
use references::leg::leg_at;
use references::reference::Reference;

// The coordinates of Table 72 in hundred-thousandths of a degree, with what the map adds to them.
const LONGITUDE_1: u32 = 18_000_000 + 612_683;

const LONGITUDE_2: u32 = 18_000_000 + 612_838;

const LONGITUDE_3: u32 = 18_000_000 + 612_817;

const LATITUDE_1: u32 = 9_000_000 + 4_960_851;

const LATITUDE_2: u32 = 9_000_000 + 4_960_398;

const LATITUDE_3: u32 = 9_000_000 + 4_960_305;

fn write(rt: &impl Print, word: &[u8]) {
    hand_over(rt, word);
}

fn print_tenths(rt: &impl Print, word: &[u8], n: u64) {
    print(rt, word, n / 10);
    print(rt, b".", n % 10);
}

fn print_hundredths(rt: &impl Print, word: &[u8], n: u64) {
    print_tenths(rt, word, n / 10);
    print(rt, b"", n % 10);
}

// A difference of 16 bits with its sign.
fn print_signed(rt: &impl Print, word: &[u8], by: u32)
    requires { by < 65_536 }
{
    write(rt, word);
    if by < 32_768 {
        print(rt, b"", by as u64);
    } else {
        print(rt, b"-", (65_536 - by) as u64);
    }
}

// Whether the differences to the point after point `k` lead to its coordinates in Table 72.
fn reached(k: usize, by_lon: u32, by_lat: u32) -> bool {
    if k == 0 {
        return longitude_sum(LONGITUDE_1, by_lon) == LONGITUDE_2
            && moved(LATITUDE_1, by_lat, LATITUDE_2);
    }
    longitude_sum(LONGITUDE_2, by_lon) == LONGITUDE_3 && moved(LATITUDE_2, by_lat, LATITUDE_3)
}

// The coordinates of each point, the differences to it from the second on.
fn show_coordinates(rt: &impl Print, reference: Reference) {
    let bytes = reference.bytes;
    print(rt, b"Table 72: 1 code ", at3(bytes, 1) as u64);
    print(rt, b" code ", at3(bytes, 4) as u64);
    for k in 0..reference.points {
        let by_lon = at2(bytes, 10 + 7 * k);
        let by_lat = at2(bytes, 12 + 7 * k);
        print(rt, b"\nTable 72: ", (k + 2) as u64);
        print_signed(rt, b" ", by_lon);
        print_signed(rt, b" ", by_lat);
        if reached(k, by_lon, by_lat) {
            write(rt, b" reached");
        }
    }
}

fn print_form_of_way(rt: &impl Print, fow: u32) {
    match fow {
        2 => write(rt, b" MULTIPLE_CARRIAGEWAY"),
        3 => write(rt, b" SINGLE_CARRIAGEWAY"),
        _ => {
            print(rt, b" FOW ", fow as u64);
        }
    }
}

// A point's number, and what it says of its line. A sector has 11.25 degrees.
fn show_point(rt: &impl Print, number: usize, a: Attributes) {
    print(rt, b"\nTable 92: ", number as u64);
    print(rt, b" FRC", a.frc as u64);
    print_form_of_way(rt, a.fow);
    print_hundredths(rt, b" ", a.sector as u64 * 1_125);
    print_hundredths(rt, b" - ", a.sector as u64 * 1_125 + 1_125);
}

// The lengths that give a byte D, in metres and tenths as the table has them. They are in centimetres here.
fn print_distance(rt: &impl Print, d: u32) {
    let from = d as u64 * DISTANCE_STEP as u64;
    print_tenths(rt, b" ", from / 10);
    print_tenths(rt, b" - ", (from + DISTANCE_STEP as u64) / 10);
}

// What the bytes say of the lines at each point and of the legs between them.
fn show_points(rt: &impl Print, reference: Reference) {
    let places = [0; Reference::MOST_POINTS];
    for k in 0..reference.points {
        let leg = leg_at(reference, &places, k);
        show_point(rt, k + 1, leg.leaves);
        print(rt, b" FRC", leg.lowest as u64);
        print_distance(rt, leg.distance);
        if let Some(a) = leg.arrival {
            show_point(rt, k + 2, a);
        }
    }
}

fn show_offset(rt: &impl Print, word: &[u8], offset: Option<u32>) {
    write(rt, word);
    match offset {
        None => write(rt, b" no offset available"),
        Some(byte) => {
            print(rt, b" byte ", byte as u64);
        }
    }
}

// The fields that the values of Tables 72 to 74 give: the tables named are those that print their bits.
// Its bearings of 135, 227 and 290 degrees are drawn, as a map has them: 20 m along, east and north in decimetres.
fn show_fields(rt: &impl Print) {
    print(rt, b"\nTable 76: ", longitude_code(LONGITUDE_1) as u64);
    print(rt, b"\nTable 77: ", latitude_code(LATITUDE_1) as u64);
    print(
        rt,
        b"\nTable 79: ",
        sector(STEP_ADDED + 141, STEP_ADDED - 141) as u64,
    );
    print(rt, b"\nTable 80: ", distance(56_100) as u64);
    print(
        rt,
        b"\nTable 84: ",
        sector(STEP_ADDED - 146, STEP_ADDED - 136) as u64,
    );
    print(rt, b"\nTable 85: ", distance(27_400) as u64);
    print(
        rt,
        b"\nTable 89: ",
        sector(STEP_ADDED - 188, STEP_ADDED + 68) as u64,
    );
    print(rt, b"\nTable 90: ", offset_byte(56_100, 15_000) as u64);
    write(rt, b"\n");
}

fn show(rt: &impl Print, bytes: &[u8]) {
    match Reference::of(bytes) {
        Ok(reference) => {
            show_coordinates(rt, reference);
            show_points(rt, reference);
            show_offset(rt, b"\nTable 93: positive", reference.positive_offset());
            show_offset(rt, b"\nTable 93: negative", reference.negative_offset());
        }
        Err(why) => {
            print(rt, b"refused ", number_of(why) as u64);
        }
    }
}

fn main(rt: HostRuntime) {
    let mut bytes = [0; 512];
    let n = load(&rt, b"example.bin", &mut bytes);
    show(&rt, &bytes[..n]);
    show_fields(&rt);
}
