// The parts of a central's state, which functions and definitions speak of. How they lie in words: crate words.
#![tactic(auto)]

use notifications::Age;
use time::{Micros, Millis};
use uuid_value::Uuid;

// A device address as a number, low + 2^32 * high, and its type.
#[derive(Clone, Copy)]
pub struct Address {
    pub low: u32,
    pub high: u16,
    pub random: bool,
}

#[derive(Clone, Copy)]
pub enum Target {
    Any,
    Address(Address),
    // The first connectable advertiser whose advertising or scan response data lists this service.
    Service(Uuid),
}

// A step's value or `contains` is bytes; their number stands beside the step and they stand in the store.
#[derive(Clone, Copy)]
pub enum Step {
    Scan {
        ms: Millis,
    },
    // Interval in 1.25 ms, latency in events, timeout in 10 ms.
    Connect {
        target: Target,
        interval: u16,
        latency: u16,
        timeout: u16,
        within_ms: Millis,
    },
    ExchangeMtu {
        mtu: u16,
    },
    DiscoverServices,
    DiscoverCharacteristics {
        service: Uuid,
    },
    Subscribe {
        characteristic: Uuid,
        indicate: bool,
    },
    Write {
        characteristic: Uuid,
        with_response: bool,
    },
    Read {
        characteristic: Uuid,
    },
    WaitNotification {
        characteristic: Uuid,
        within_ms: Millis,
        age: Age,
    },
    Wait {
        ms: Millis,
    },
    Disconnect,
    Capture {
        enabled: bool,
    },
    CaptureSecrets {
        secrets: bool,
    },
}

#[derive(Clone, Copy)]
pub enum StepStatus {
    Ok,
    Timeout,
    NotConnected,
    NotFound,
    AttError(u8),
    TooLong,
    Disconnected,
    // A table had no place for what a head told of itself.
    TableFull,
    // In strict mode: an earlier request on this link was never answered.
    BearerClosed,
}

#[derive(Clone, Copy)]
pub struct Queued {
    pub step: Step,
    pub len: u8,
}

// The waiting steps, the next one first; those from count on are none.
// Kept: an array with a count, here and in the tables below, since there is no heap, and a place from the count on has its words too.
#[derive(Clone, Copy)]
pub struct Queue {
    pub kept: [Queued; 64],
    pub count: usize,
}

// An aged wait that ends Ok tells what it passed on: one past the number of a notification, 0 in every other result.
#[derive(Clone, Copy)]
pub struct StepResult {
    pub index: u32,
    pub at: Micros,
    pub status: StepStatus,
    pub len: u8,
    pub heard: u64,
}

// The newest results, the oldest first; those from count on are none.
#[derive(Clone, Copy)]
pub struct Results {
    pub kept: [StepResult; 64],
    pub count: usize,
}

// The running step, if it is active; its deadline, if it is dated.
// Kept: flags beside the values, since a step that has ended leaves its fields in the words of C (c_core/specs/Layout.antt).
#[derive(Clone, Copy)]
pub struct Running {
    pub deadline: Micros,
    pub step: Step,
    pub index: u32,
    pub cursor: u16,
    pub len: u8,
    pub phase: u8,
    pub active: bool,
    pub dated: bool,
}

// What a present link is: 01's link record. A pending opcode of 0 is none.
// Kept: 0 for no opcode, since the link's word of C says so (c_core/specs/Layout.antt), and `answered` sets it.
#[derive(Clone, Copy)]
pub struct Link {
    pub handle: u16,
    pub mtu: u16,
    pub pending: u8,
    pub terminating: bool,
}

// The link, if it is present, how many bytes are held of a frame, and whether a request was given up on it (set in strict mode alone).
// Kept: a flag beside the link, since `unlinked` (script_rules/specs/Bearers.antt) keeps its record.
#[derive(Clone, Copy)]
pub struct Bearer {
    pub held: usize,
    pub link: Link,
    pub present: bool,
    pub closed: bool,
}

// The present link has the number `links`.
#[derive(Clone, Copy)]
pub struct Counters {
    pub next_index: u32,
    pub refused_steps: u64,
    pub notified: u64,
    pub wait_from: u64,
    pub links: u64,
}

// What was heard of each advertiser, a place of each array for one: a response of 32 bytes is none.
// Kept: arrays side by side and 32 for none, since the definition `heard_in` (words/specs/Tables.antt) reads them so.
#[derive(Clone, Copy)]
pub struct Heard {
    pub at: [Micros; 64],
    pub channel: [u8; 64],
    pub pdu: [u8; 64],
    pub len: [u8; 64],
    pub response: [u8; 64],
}

// The reports, the oldest first; those from count on are none.
#[derive(Clone, Copy)]
pub struct Reports {
    pub who: [u64; 64],
    pub heard: Heard,
    pub count: usize,
}

// The advertisers that the running scan has asked; those from count on are none.
#[derive(Clone, Copy)]
pub struct Keys {
    pub kept: [u64; 128],
    pub count: usize,
}

#[derive(Clone, Copy)]
pub struct Counts {
    pub waiting: usize,
    pub results: usize,
    pub services: usize,
    pub characteristics: usize,
    pub notifications: usize,
}

// What is chosen when a state is made. With none chosen it does what the Rust does.
#[derive(Clone, Copy)]
pub struct Options {
    // After an ATT timeout no step sends ATT until the next link (Core Vol 3 Part F 3.3.3).
    pub strict: bool,
}

#[derive(Clone, Copy)]
pub enum LinkRequest {
    Update {
        interval: u16,
        latency: u16,
        timeout: u16,
    },
    Terminate {
        reason: u8,
    },
}

// What a call has sent so far: at most one request to the link layer.
#[derive(Clone, Copy)]
pub struct Sent {
    pub frames: usize,
    pub bytes: usize,
    pub request: Option<LinkRequest>,
}
