// The papers' numbers that the code needs. Each stands in specs/ once, under the same name.

// How many numbers of the work area a call uses (specs/Work.antt).
pub const WORK_LENGTH: usize = 14_336;

// The greatest count of nodes, of lines and of banned turns, and the greatest length of a line in centimetres (specs/Map.antt).
pub const GREATEST_NODE_COUNT: u32 = 512;

pub const GREATEST_LINE_COUNT: u32 = 1_024;

pub const GREATEST_BAN_COUNT: u32 = 512;

pub const GREATEST_LINE_LENGTH: u32 = 1_500_000;

// What is added to a step where the map stores it, and the greatest number so stored (specs/Sector.antt).
pub const STEP_ADDED: u32 = 250;

pub const GREATEST_STEP: u32 = 500;

// The greatest length of a leg in centimetres (specs/Reading.antt).
pub const GREATEST_LEG_LENGTH: u32 = 1_500_000;

// Centimetres to a step of byte D: 58.6 m (specs/Field.antt).
pub const DISTANCE_STEP: u32 = 5_860;

// An offset byte counts 256ths of a leg, and the greatest byte (specs/Field.antt).
pub const OFFSET_STEPS: u64 = 256;

pub const GREATEST_OFFSET_BYTE: u32 = 255;

// The most lines of a stretch (specs/Stretch.antt).
pub const GREATEST_STRETCH: usize = 64;

// The most lines that a C host is given (specs/Host.antt).
pub const GREATEST_HOST_LINES: usize = 1_024;

// The most bytes of a reference (specs/Reference.antt).
pub const LONGEST_REFERENCE: usize = 459;

// How many bytes of a buffer a message may take (specs/Message.antt).
pub const LONGEST_MESSAGE: usize = 16_384;

// The greatest orientation and the greatest side of road (specs/PointAlong.antt).
pub const GREATEST_MARK: u32 = 3;
