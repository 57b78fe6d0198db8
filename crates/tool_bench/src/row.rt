// What tells the loops' states apart.
use crate::begin::UNLISTED;
use att_pdu::op;
use notifications::Age;
use state::{Counters, Counts, Step, Target};
use time::{Micros, Millis};

#[derive(Clone, Copy)]
pub struct Row {
    // The running step, and each that waits.
    pub step: Step,
    pub len: u8,
    pub phase: u8,
    pub deadline: Micros,
    pub counts: Counts,
    pub counters: Counters,
    // How many bytes each kept notification has.
    pub heard: u8,
    pub linked: bool,
    pub pending: u8,
    // The first advertiser that is kept, how many are asked, and the length of a scan response, if there is one.
    pub first: u32,
    pub asked: usize,
    pub response: Option<u8>,
}

// The link's.
pub const HANDLE: u16 = 64;

const HEARD: u8 = 20;

const LATE: Micros = Micros(60_000_000);

const LONG: Millis = Millis(60_000);

pub const WAIT: Step = Step::Wait { ms: Millis(1) };

const EMPTY: Counts = Counts {
    waiting: 0,
    results: 0,
    services: 0,
    characteristics: 0,
    notifications: 0,
};

const HALF_FULL: Counts = Counts {
    waiting: 32,
    results: 32,
    services: 16,
    characteristics: 32,
    notifications: 16,
};

const COUNTERS: Counters = Counters {
    next_index: 1,
    refused_steps: 0,
    notified: 0,
    wait_from: 0,
    links: 0,
};

// What most rows have.
const PLAIN: Row = Row {
    step: WAIT,
    len: 0,
    phase: 0,
    deadline: LATE,
    counts: EMPTY,
    counters: COUNTERS,
    heard: HEARD,
    linked: false,
    pending: 0,
    first: 0,
    asked: 0,
    response: None,
};

// ---- advertisements

pub const CONNECTS: Step = Step::Connect {
    target: Target::Service(UNLISTED),
    interval: 24,
    latency: 0,
    timeout: 100,
    within_ms: LONG,
};

const SCANS: Step = Step::Scan { ms: LONG };

// What the advertisers meet.
#[derive(Clone, Copy, PartialEq, Eq)]
pub enum Listening {
    // A Scan, 64 advertisers, all known.
    Known,
    // A Scan, 100 advertisers, the last 64 of them known.
    Missed,
    // A Connect by a service that no one lists, 64 advertisers, all known and with a scan response.
    Unlisted,
}

// By the number that ./bench has for it.
impl From<u8> for Listening {
    fn from(row: u8) -> Self {
        match row {
            1 => Listening::Missed,
            2 => Listening::Unlisted,
            _ => Listening::Known,
        }
    }
}

impl Listening {
    // How many advertisers there are.
    pub fn advertisers(self) -> u32 {
        if self == Listening::Missed { 100 } else { 64 }
    }

    pub fn row(self, half: bool) -> Row {
        let plain = Row {
            counts: if half { HALF_FULL } else { EMPTY },
            counters: Counters {
                notified: if half { 16 } else { 0 },
                ..COUNTERS
            },
            ..PLAIN
        };
        match self {
            Listening::Known => Row {
                step: SCANS,
                asked: 64,
                ..plain
            },
            Listening::Missed => Row {
                step: SCANS,
                first: 36,
                asked: 100,
                ..plain
            },
            Listening::Unlisted => Row {
                step: CONNECTS,
                response: Some(31),
                ..plain
            },
        }
    }
}

// ---- timer calls

// A wait runs until 1 ms, and 64 more wait.
pub fn timed() -> Row {
    Row {
        deadline: Micros(1000),
        counts: Counts {
            waiting: 64,
            ..EMPTY
        },
        ..PLAIN
    }
}

// ---- fragments

pub const WAITS: Step = Step::WaitNotification {
    characteristic: UNLISTED,
    within_ms: LONG,
    age: Age::Any,
};

const TALKED: Counts = Counts {
    waiting: 0,
    results: 0,
    services: 1,
    characteristics: 20,
    notifications: 32,
};

// A link is there, and 32 notifications were heard.
const TALKS: Row = Row {
    step: WAITS,
    len: 0,
    phase: 0,
    deadline: LATE,
    counts: TALKED,
    counters: Counters {
        next_index: 1,
        refused_steps: 0,
        notified: 32,
        wait_from: 0,
        links: 0,
    },
    heard: HEARD,
    linked: true,
    pending: 0,
    first: 0,
    asked: 0,
    response: None,
};

// A wait looks at all that is kept: for `needle` bytes in values of `each`.
pub fn searching(each: u8, needle: u8) -> Row {
    Row {
        len: needle,
        heard: each,
        ..TALKS
    }
}

// What a fragment meets.
#[derive(Clone, Copy)]
pub enum Talking {
    // 65 waits of 4 bytes, which nothing kept ends.
    Ends,
    // One, which looks at all that is kept.
    GoesOn,
    // 65 Reads.
    Reads,
    // Discovery asks for the characteristics of a service.
    Discovers,
}

// By the number that ./bench has for it.
impl From<u8> for Talking {
    fn from(row: u8) -> Self {
        match row {
            1 => Talking::GoesOn,
            2 => Talking::Reads,
            3 => Talking::Discovers,
            _ => Talking::Ends,
        }
    }
}

impl Talking {
    pub fn row(self) -> Row {
        match self {
            Talking::Ends => Row {
                len: 4,
                counts: Counts {
                    waiting: 64,
                    ..TALKED
                },
                counters: Counters {
                    wait_from: 32,
                    ..TALKS.counters
                },
                ..TALKS
            },
            Talking::GoesOn => searching(HEARD, 4),
            Talking::Reads => Row {
                step: Step::Read {
                    characteristic: UNLISTED,
                },
                pending: op::READ_REQ,
                counts: Counts {
                    waiting: 64,
                    ..TALKED
                },
                ..TALKS
            },
            Talking::Discovers => Row {
                step: Step::DiscoverCharacteristics { service: UNLISTED },
                phase: 1,
                pending: op::READ_BY_TYPE_REQ,
                counts: Counts {
                    characteristics: 0,
                    ..TALKED
                },
                ..TALKS
            },
        }
    }
}
