// The answers that the reader and the writer give, and messages. What they mean is defined in specs/.
#![tactic(auto)]

ghost use Rattle.std.specs.Prelude.{◌≡◌};
ghost use Rattle.model.specs.Refusal.{number_of, place_of, refusal_of};

pub mod limits;

// Why a call is refused: a variant for each number of the table "Refused, by place" of paper 01 and of paper 02, in the order of the numbers.
// `refusal_of` in specs/Refusal.antt gives the number, and the point or leg for 16, 17 and 18.
#[derive(Clone, Copy)]
pub enum Refusal {
    WorkAreaShort,
    MapNumber,
    MapCount,
    MapCoordinate,
    MapLine,
    EqualCodes,
    StretchLines,
    StretchGap,
    StretchOffsets,
    NoChoice,
    BytesShort,
    ReferenceLength,
    ReferenceStatus,
    ReferenceBits,
    ReferenceFlags,
    NoNode(u32),
    NoReading(u32),
    SeveralReadings(u32),
    NoOffset,
    LinesShort,
    StretchBan,
    JoinedBan,
    MapBan,
    MapStep,
    PointMarks,
    Unfinished,
    MessageOrder,
    MessageFull,
    OtherMap,
}

// The least and the greatest offset, in centimetres, that an offset byte may stand for. 0 and 0 where there is no byte.
#[derive(Clone, Copy)]
pub struct Span {
    pub least: u32,
    pub greatest: u32,
}

// What the reader found: the count of lines, and the spans of the positive and the negative offset.
#[derive(Clone, Copy)]
pub struct ReadLines {
    pub count: usize,
    pub positive: Span,
    pub negative: Span,
}

// What the reader answers, or why not.
pub type ReadAnswer = Result<ReadLines, Refusal>;

// What the reader of points along a line found: the count of lines, the span of the offset, the orientation and the side of road.
#[derive(Clone, Copy)]
pub struct ReadPoint {
    pub count: usize,
    pub offset: Span,
    pub orientation: u32,
    pub side: u32,
}

// What the reader of points along a line answers, or why not.
pub type PointReadAnswer = Result<ReadPoint, Refusal>;

// What the writer made: the count of bytes, the leg tests made and the excess.
#[derive(Clone, Copy)]
pub struct WrittenBytes {
    pub bytes: usize,
    pub tests: u32,
    pub excess: u32,
}

// What the writer answers, or why not.
pub type WriteAnswer = Result<WrittenBytes, Refusal>;

// What the writer of points along a line answers: the count of bytes, or why not.
pub type PointWriteAnswer = Result<usize, Refusal>;

// A message that is being written, as far as its buffer does not say it.
#[derive(Clone, Copy)]
pub enum Message {
    // No reference is open: the count of bytes of those that are finished.
    Closed(usize),
    // One is open: that count, and how many bytes the open one has so far.
    Open(usize, usize),
}

// What a call on a message answers: the message as it is now, or why not; then it is as it was.
pub type MessageAnswer = Result<Message, Refusal>;

// A refusal as the table has it: its number, and the point or leg that it carries, 0 where it carries none. C and the printed rows give a refusal so.
#[derive(Clone, Copy)]
pub struct Row(pub u32, pub u32);

// The row of a refusal in the table.
impl From<Refusal> for Row {
    #[tactic(auto, unfolding(crate::specs::Refusal::number_of, crate::specs::Refusal::place_of, crate::specs::Refusal::refusal_of))]
    fn from(why: Refusal) -> Row
        ensures { (result.0 ≡ number_of (refusal_of why)) × (result.1 ≡ place_of (refusal_of why)) }
    {
        match why {
            Refusal::WorkAreaShort => Row(1, 0),
            Refusal::MapNumber => Row(2, 0),
            Refusal::MapCount => Row(3, 0),
            Refusal::MapCoordinate => Row(4, 0),
            Refusal::MapLine => Row(5, 0),
            Refusal::EqualCodes => Row(6, 0),
            Refusal::StretchLines => Row(7, 0),
            Refusal::StretchGap => Row(8, 0),
            Refusal::StretchOffsets => Row(9, 0),
            Refusal::NoChoice => Row(10, 0),
            Refusal::BytesShort => Row(11, 0),
            Refusal::ReferenceLength => Row(12, 0),
            Refusal::ReferenceStatus => Row(13, 0),
            Refusal::ReferenceBits => Row(14, 0),
            Refusal::ReferenceFlags => Row(15, 0),
            Refusal::NoNode(place) => Row(16, place),
            Refusal::NoReading(place) => Row(17, place),
            Refusal::SeveralReadings(place) => Row(18, place),
            Refusal::NoOffset => Row(19, 0),
            Refusal::LinesShort => Row(20, 0),
            Refusal::StretchBan => Row(21, 0),
            Refusal::JoinedBan => Row(22, 0),
            Refusal::MapBan => Row(23, 0),
            Refusal::MapStep => Row(24, 0),
            Refusal::PointMarks => Row(25, 0),
            Refusal::Unfinished => Row(26, 0),
            Refusal::MessageOrder => Row(27, 0),
            Refusal::MessageFull => Row(28, 0),
            Refusal::OtherMap => Row(30, 0),
        }
    }
}

// The number of a refusal in the table.
pub fn number_of(why: Refusal) -> u32
    ensures { result ≡ number_of (refusal_of why) }
{
    Row::from(why).0
}
