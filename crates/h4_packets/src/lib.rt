// What stands at the front of an H4 byte stream: packet indicators (Core Vol 4 Part A 2), headers and lengths (Part E 5.4).
#![tactic(auto)]

ghost use Rattle.std.specs.Prelude.{◌≡◌, ◌++◌, ◌≤◌, ◌<◌, length, get_or, drop};
ghost use Rattle.h4_packets.specs.Packet.{header_size, payload_size, packet_length};
ghost use Rattle.h4_packets.specs.Names.{code, named, number, told_number, refusal_by};

// Packet indicators, Core Vol 4 Part A 2.
#[derive(Clone, Copy, PartialEq, Eq)]
pub enum Indicator {
    Command = 1,
    Acl = 2,
    Sco = 3,
    Event = 4,
    Iso = 5,
}

// A byte that is no packet indicator.
#[derive(Clone, Copy, PartialEq, Eq)]
pub struct UndefinedIndicator(pub u8);

// How framing is lost: by an undefined indicator, or by a packet that is too long.
#[derive(Clone, Copy, PartialEq, Eq)]
pub enum Lost {
    ByIndicator,
    ByLength,
}

// Refusals of the serial transport, in order of test.
#[derive(Clone, Copy, PartialEq, Eq)]
pub enum Refusal {
    // More than 1,024 bytes are held.
    Overheld = 1,
    // The output is too short.
    ShortOutput = 2,
    // The packet indicator is undefined.
    BadIndicator = 9,
    // The packet is too long.
    LongPacket = 10,
}

// The longest packet that a stream takes, indicator and header counted.
pub const LONGEST: usize = 1024;

// Lengths of ISO data are below this: 14 bits, and 2 reserved ones above them.
const ISO_LENGTHS: usize = 0x4000;

impl TryFrom<u8> for Indicator {
    type Error = UndefinedIndicator;

    ghost try_from_gives = { λ byte r. r ≡ named byte };

    fn try_from(byte: u8) -> Result<Self, UndefinedIndicator> {
        match byte {
            1 => Ok(Indicator::Command),
            2 => Ok(Indicator::Acl),
            3 => Ok(Indicator::Sco),
            4 => Ok(Indicator::Event),
            5 => Ok(Indicator::Iso),
            _ => Err(UndefinedIndicator(byte)),
        }
    }
}

impl Indicator {
    // Bytes of the indicator and the header.
    #[tactic(auto, unfolding(crate::specs::Packet::header_size))]
    pub fn header_size(self) -> usize
        ensures value { result ≡ header_size (code self) }
        ensures least { 3 ≤ result }
        ensures most { result ≤ 5 }
    {
        match self {
            Indicator::Command => 4,
            Indicator::Acl => 5,
            Indicator::Sco => 4,
            Indicator::Event => 3,
            Indicator::Iso => 5,
        }
    }

    // Bytes behind the header. The length field ends each header: its last byte, or its last two.
    #[tactic(auto, unfolding(crate::specs::Packet::payload_size))]
    pub fn payload_size(self, before: u8, last: u8) -> usize
        ensures value { result ≡ payload_size (code self) before last }
        ensures most { result < 65536 }
    {
        let wide = usize::from(u16::from_le_bytes([before, last]));
        match self {
            Indicator::Acl => wide,
            Indicator::Iso => wide % ISO_LENGTHS,
            Indicator::Command | Indicator::Sco | Indicator::Event => usize::from(last),
        }
    }
}

impl Refusal {
    pub fn number(self) -> u8
        ensures { result ≡ number self }
    {
        self as u8
    }
}

// The number that a feed or a builder tells: 0 if it is not refused.
pub fn told_number(refusal: Option<Refusal>) -> u8
    ensures { result ≡ told_number refusal }
{
    match refusal {
        None => 0,
        Some(why) => why.number(),
    }
}

impl From<UndefinedIndicator> for Lost {
    ghost use Rattle.h4_packets.specs.declared.Lost.TheVariants.{ByIndicator};

    ghost from_gives = { λ _ lost. lost ≡ ByIndicator };

    fn from(_undefined: UndefinedIndicator) -> Self {
        Self::ByIndicator
    }
}

impl From<Lost> for Refusal {
    ghost from_gives = { λ lost refusal. refusal ≡ refusal_by lost };

    fn from(lost: Lost) -> Refusal {
        match lost {
            Lost::ByIndicator => Refusal::BadIndicator,
            Lost::ByLength => Refusal::LongPacket,
        }
    }
}

// Bytes of the indicator and the header, or 0 where the indicator is undefined.
pub fn header_size(indicator: u8) -> usize
    ensures { result ≡ header_size indicator }
{
    match Indicator::try_from(indicator) {
        Ok(known) => known.header_size(),
        Err(_) => 0,
    }
}

// Bytes behind the header, by its last two bytes; where the indicator is undefined, as many as the last one tells.
pub fn payload_size(indicator: u8, before: u8, last: u8) -> usize
    ensures { (result ≡ payload_size indicator before last) × (result < 65536) }
{
    match Indicator::try_from(indicator) {
        Ok(known) => known.payload_size(before, last),
        Err(_) => usize::from(last),
    }
}

// The byte at index i of `first` and, behind it, `rest`.
fn byte_at(first: &[u8], rest: &[u8], i: usize) -> u8
    requires { i < length (first.now ++ rest.now) }
    ensures { result ≡ get_or (first.now ++ rest.now) i 0 }
{
    if i < first.len() {
        first[i]
    } else {
        rest[i - first.len()]
    }
}

// The length of the packet that begins at index `at` of `first` and, behind it, `rest`. None where too few bytes are there to tell.
pub fn packet_len(first: &[u8], rest: &[u8], at: usize) -> Result<Option<usize>, UndefinedIndicator>
    ensures { result ≡ packet_length (drop at (first.now ++ rest.now)) }
{
    let there = (first.len() + rest.len()).saturating_sub(at);
    if there == 0 {
        return Ok(None);
    }
    let indicator = Indicator::try_from(byte_at(first, rest, at))?;
    let header = indicator.header_size();
    if there < header {
        return Ok(None);
    }
    let before = byte_at(first, rest, at + (header - 2));
    let last = byte_at(first, rest, at + (header - 1));
    Ok(Some(header + indicator.payload_size(before, last)))
}

// hci.rs, h4_packet_len. Behind an empty part, bytes are read without a test of the index.
pub fn h4_packet_len(bytes: &[u8]) -> Result<Option<usize>, UndefinedIndicator>
    ensures { result ≡ packet_length bytes.now }
{
    packet_len(&[], bytes, 0)
}
