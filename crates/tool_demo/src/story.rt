// What happens of itself, and when; what is heard at it.
use time::Micros;

// The night: the evening, and a morning that is told three times: with waits of any age; with aged waits, and a notification comes
// while one runs; with aged waits, and it comes while none runs.
#[derive(Clone, Copy)]
pub enum Part {
    Evening,
    AnyAge,
    Fresh,
    Late,
}

#[derive(Clone, Copy)]
pub enum What {
    // The part's script is handed in.
    Script,
    // The head advertises, or a stranger.
    Advert { head: bool },
    Response,
    Timer,
    Connected,
    // A frame of the head.
    Frame { why: Why },
    Disconnected,
}

// Why the head sends a frame.
#[derive(Clone, Copy)]
pub enum Why {
    Answers,
    // A car comes.
    Taken,
    // It leaves.
    Free,
}

// Something that happens; whether it does of itself.
#[derive(Clone, Copy)]
pub struct Happening {
    pub at: Micros,
    pub what: What,
    pub of_itself: bool,
}

// 23:00:00 and 05:00:00, of a clock that counts from the midnight before.
const EVENING: Micros = Micros(82_800_000_000);

const MORNING: Micros = Micros(104_400_000_000);

// What happens of itself in each part, and how many microseconds after its beginning.
static EVENS: [(u64, What); 10] = [
    (0, What::Script),
    (100_000, What::Advert { head: false }),
    (200_000, What::Advert { head: true }),
    (200_500, What::Response),
    (1_100_000, What::Advert { head: false }),
    (1_200_000, What::Advert { head: true }),
    (1_201_000, What::Connected),
    (2_000_000, What::Frame { why: Why::Taken }),
    (2_700_000, What::Frame { why: Why::Free }),
    (3_020_000, What::Disconnected),
];

static ANY_AGE: [(u64, What); 4] = [
    (0, What::Script),
    (100_000, What::Advert { head: true }),
    (101_000, What::Connected),
    (1_111_000, What::Disconnected),
];

static FRESH: [(u64, What); 5] = [
    (0, What::Script),
    (100_000, What::Advert { head: true }),
    (101_000, What::Connected),
    (601_000, What::Frame { why: Why::Taken }),
    (1_611_000, What::Disconnected),
];

static LATE: [(u64, What); 5] = [
    (0, What::Script),
    (100_000, What::Advert { head: true }),
    (101_000, What::Connected),
    (1_601_000, What::Frame { why: Why::Taken }),
    (5_111_000, What::Disconnected),
];

fn story_of(part: Part) -> (Micros, &'static [(u64, What)]) {
    match part {
        Part::Evening => (EVENING, &EVENS),
        Part::AnyAge => (MORNING, &ANY_AGE),
        Part::Fresh => (MORNING, &FRESH),
        Part::Late => (MORNING, &LATE),
    }
}

// What happens of itself after so many things, if the part is not over; the head's answers and the timer come between.
pub fn of_itself(part: Part, i: usize) -> Option<Happening> {
    let (begin, story) = story_of(part);
    let (us, what) = *story.get(i)?;
    Some(Happening {
        at: time::later(begin, Micros(us)),
        what,
        of_itself: true,
    })
}

fn put(to: &mut [u8], s: &[u8]) -> usize {
    let n = s.len();
    bytes_copies::copy_in(to, 0, s, 0, n);
    n
}

// Advertising data.
fn advert(head: bool, to: &mut [u8]) -> usize {
    if head {
        return put(
            to,
            b"\x02\x01\x06\x11\x07\x9E\xCA\xDC\x24\x0E\xE5\xA9\xE0\x93\xF3\xA3\xB5\x01\x00\x40\x6E",
        );
    }
    put(to, b"\x03\x03\x0A\x18")
}

// A frame of the head, which has heard what was sent.
fn frame(why: Why, sent: &[u8], to: &mut [u8]) -> usize {
    match why {
        Why::Answers => tool_head::answer(sent, to),
        Why::Taken => tool_head::notify(to, true),
        Why::Free => tool_head::notify(to, false),
    }
}

// The bytes that are heard at it, written to `to`.
pub fn bytes(what: What, sent: &[u8], to: &mut [u8]) -> usize {
    match what {
        What::Script => 0,
        What::Advert { head } => advert(head, to),
        What::Response => put(to, b"\x08\x09Bay 042"),
        What::Timer => 0,
        What::Connected => 0,
        What::Frame { why } => frame(why, sent, to),
        What::Disconnected => 0,
    }
}
