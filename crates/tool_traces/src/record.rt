// Records of a trace (docs/TRACE.md): a tag, the body's length, the body.
use crate::steps;
use std::error::Error;
use std::fmt;
use std::ops::RangeInclusive;

// Standard input.
const STDIN_FILENO: i32 = 0;

// A tag, and a length of 4 bytes.
const HEADER: usize = 5;

const LENGTH_AT: usize = 1;

// The longest body: a fragment.
pub const MOST_BODY: usize = 65_544;

// Flags of an advertisement, of a scan response and of a fragment.
pub const RANDOM_AT: usize = 16;

pub const TO_CENTRAL_AT: usize = 17;

pub const RESPONSE_RANDOM_AT: usize = 14;

pub const START_AT: usize = 8;

// What a record asks for, in the order of the tags' numbers.
#[derive(Clone, Copy, Debug, PartialEq, Eq)]
pub enum Tag {
    Fresh,
    Batch,
    Timer,
    Connected,
    Disconnected,
    Advertising,
    ScanResponse,
    Fragment,
    TimerUs,
    ConnectedHandle,
    Result,
    Dump,
    Links,
    PassedOn,
    FreshWith,
    Mode,
}

// Why a record can't be read.
#[derive(Clone, Copy, Debug, PartialEq, Eq)]
pub enum Bad {
    // The input ends inside it.
    Cut,
    // No record has this tag.
    Tag,
    // No record of this tag is so long or so short.
    Length,
    // A kind, target or flag that is none.
    Field,
}

impl Bad {
    // The word of its line.
    pub fn word(self) -> &'static str {
        match self {
            Bad::Cut => "cut",
            Bad::Tag => "tag",
            Bad::Length => "length",
            Bad::Field => "field",
        }
    }
}

impl fmt::Display for Bad {
    fn fmt<W: fmt::Write>(&self, f: &mut fmt::Formatter<W>) -> fmt::Result {
        f.write_str(self.word())
    }
}

impl Error for Bad {}

impl TryFrom<u8> for Tag {
    type Error = Bad;

    fn try_from(number: u8) -> Result<Self, Bad> {
        match number {
            0 => Ok(Tag::Fresh),
            1 => Ok(Tag::Batch),
            2 => Ok(Tag::Timer),
            3 => Ok(Tag::Connected),
            4 => Ok(Tag::Disconnected),
            5 => Ok(Tag::Advertising),
            6 => Ok(Tag::ScanResponse),
            7 => Ok(Tag::Fragment),
            8 => Ok(Tag::TimerUs),
            9 => Ok(Tag::ConnectedHandle),
            10 => Ok(Tag::Result),
            11 => Ok(Tag::Dump),
            12 => Ok(Tag::Links),
            13 => Ok(Tag::PassedOn),
            14 => Ok(Tag::FreshWith),
            15 => Ok(Tag::Mode),
            _ => Err(Bad::Tag),
        }
    }
}

impl Tag {
    // The least and the most bytes of a body.
    fn lengths(self) -> RangeInclusive<usize> {
        match self {
            Tag::Batch => 12..=18_956,
            Tag::Timer | Tag::Disconnected | Tag::FreshWith => 8..=8,
            Tag::Connected => 10..=10,
            Tag::Advertising => 18..=273,
            Tag::ScanResponse => 15..=270,
            Tag::Fragment => 9..=MOST_BODY,
            Tag::Result | Tag::PassedOn => 4..=4,
            Tag::Fresh | Tag::TimerUs | Tag::ConnectedHandle | Tag::Dump | Tag::Links | Tag::Mode =>
                0..=0,
        }
    }
}

// A record whose body is so many bytes.
#[derive(Clone, Copy)]
pub struct Record {
    pub tag: Tag,
    pub len: usize,
}

// The byte at a place, or 0.
pub fn byte(s: &[u8], at: usize) -> u8 {
    s.get(at).copied().unwrap_or(0)
}

pub fn is_flag(s: &[u8], at: usize) -> bool {
    byte(s, at) <= 1
}

// The fields of a whole body.
fn check_fields(tag: Tag, body: &[u8]) -> Result<(), Bad> {
    let good = match tag {
        Tag::Batch => return steps::check(body),
        Tag::Advertising => is_flag(body, RANDOM_AT) & is_flag(body, TO_CENTRAL_AT),
        Tag::ScanResponse => is_flag(body, RESPONSE_RANDOM_AT),
        Tag::Fragment => is_flag(body, START_AT),
        _ => true,
    };
    if good { Ok(()) } else { Err(Bad::Field) }
}

// Fills the bytes from the input.
fn fill(body: &mut [u8]) -> Result<(), Bad> {
    if io::read_full(STDIN_FILENO, body) < body.len() {
        return Err(Bad::Cut);
    }
    Ok(())
}

// The body of so many bytes goes to the start of the buffer.
fn read_body(body: &mut [u8], tag: Tag, len: usize) -> Result<(), Bad> {
    if !tag.lengths().contains(&len) {
        return Err(Bad::Length);
    }
    let body = body.get_mut(..len).ok_or(Bad::Cut)?;
    fill(body)?;
    check_fields(tag, body)
}

// The next record, with its body at the start of the buffer; None where the input ends between two records.
pub fn read_next(body: &mut [u8]) -> Result<Option<Record>, Bad> {
    let mut head = [0u8; HEADER];
    let n = io::read_full(STDIN_FILENO, &mut head);
    if n == 0 {
        return Ok(None);
    }
    if n < HEADER {
        return Err(Bad::Cut);
    }
    let tag = Tag::try_from(head[0])?;
    let len = bytes_numbers::le32(&head, LENGTH_AT) as usize;
    read_body(body, tag, len)?;
    Ok(Some(Record { tag, len }))
}
