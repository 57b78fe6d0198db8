// A core in words that C owns, one field a word: any words are a core, and a core put into words is read again.
#![tactic(auto)]

ghost use Rattle.std.specs.Prelude.{◌≡◌, ◌%◌};
ghost use Rattle.words.specs.Words.{two16, two32};
ghost use Rattle.c_core.specs.Layout.{flag_in, flat_in, running_in, bearer_in, counters_in, counts_in, options_in, core_in};

use state::{Bearer, Counters, Counts, Link, Options, Running};
use state_core::Core;
use time::{Micros, Millis};
use uuid_value::Uuid;
use words::Flat;

// All words of a core.
pub const SIZE: usize = 37;

// The running step: its deadline, its number, how far it is, the length of its value, and whether it is there and dated.
pub const DEADLINE: usize = 0;

pub const INDEX: usize = 1;

pub const CURSOR: usize = 2;

pub const LEN: usize = 3;

pub const PHASE: usize = 4;

pub const ACTIVE: usize = 5;

pub const DATED: usize = 6;

// What the running step is, taken apart.
pub const KIND: usize = 7;

pub const FLAG: usize = 8;

pub const MS: usize = 9;

// The MTU that an exchange names; 0 for every other kind.
pub const STEP_SIZE: usize = 10;

pub const UUID_LOW: usize = 11;

pub const UUID_HIGH: usize = 12;

pub const AIM: usize = 13;

pub const LATENCY: usize = 14;

pub const TIMEOUT: usize = 15;

pub const INTERVAL: usize = 16;

// The link: how many bytes of a frame are held, the link record, and whether there is a link.
pub const HELD: usize = 17;

pub const HANDLE: usize = 18;

pub const MTU: usize = 19;

pub const PENDING: usize = 20;

pub const TERMINATING: usize = 21;

pub const PRESENT: usize = 22;

// The counters.
pub const NEXT_INDEX: usize = 23;

pub const REFUSED_STEPS: usize = 24;

pub const NOTIFIED: usize = 25;

pub const WAIT_FROM: usize = 26;

// How many places of each table are in use.
pub const WAITING: usize = 27;

pub const RESULTS: usize = 28;

pub const SERVICES: usize = 29;

pub const CHARACTERISTICS: usize = 30;

pub const NOTIFICATIONS: usize = 31;

pub const REPORTS: usize = 32;

pub const KEY_COUNT: usize = 33;

// What came later stands behind all others: a counter, the link's closed flag, and the options, one bit each.
pub const LINKS: usize = 34;

pub const CLOSED: usize = 35;

pub const OPTIONS: usize = 36;

// How many numbers 8, 16 and 32 bits have.
pub const IN_8_BITS: u64 = 256;

pub const IN_16_BITS: u64 = 65_536;

pub const IN_32_BITS: u64 = 4_294_967_296;

// ---- the parts from their words

// Kept: beside c_steps::flat_at, since here each word has its name and is there; a lent step's words may be missing.
fn flat_in(w: &[u64; 37]) -> Flat
    ensures { result ≡ flat_in w.now }
{
    let kind = (w[KIND] % IN_8_BITS) as u8;
    let flag = w[FLAG] % 2 == 1;
    let ms = (w[MS] % IN_32_BITS) as u32;
    let size = (w[STEP_SIZE] % IN_16_BITS) as u16;
    let low = w[UUID_LOW];
    let high = w[UUID_HIGH];
    let aim = (w[AIM] % IN_8_BITS) as u8;
    let latency = (w[LATENCY] % IN_16_BITS) as u16;
    let timeout = (w[TIMEOUT] % IN_16_BITS) as u16;
    let interval = (w[INTERVAL] % IN_16_BITS) as u16;
    Flat {
        kind,
        flag,
        ms: Millis(ms),
        size,
        uuid: Uuid { low, high },
        aim,
        latency,
        timeout,
        interval,
    }
}

fn running_in(w: &[u64; 37]) -> Running
    ensures { result ≡ running_in w.now }
{
    let f = flat_in(w);
    let step = words_step::step_of(f);
    let at = w[DEADLINE];
    let index = (w[INDEX] % IN_32_BITS) as u32;
    let cursor = (w[CURSOR] % IN_16_BITS) as u16;
    let len = (w[LEN] % IN_8_BITS) as u8;
    let phase = (w[PHASE] % IN_8_BITS) as u8;
    let active = w[ACTIVE] % 2 == 1;
    let dated = w[DATED] % 2 == 1;
    Running {
        deadline: Micros(at),
        step,
        index,
        cursor,
        len,
        phase,
        active,
        dated,
    }
}

fn bearer_in(w: &[u64; 37]) -> Bearer
    ensures { result ≡ bearer_in w.now }
{
    let held = w[HELD] as usize;
    let handle = (w[HANDLE] % IN_16_BITS) as u16;
    let mtu = (w[MTU] % IN_16_BITS) as u16;
    let pending = (w[PENDING] % IN_8_BITS) as u8;
    let terminating = w[TERMINATING] % 2 == 1;
    let present = w[PRESENT] % 2 == 1;
    let closed = w[CLOSED] % 2 == 1;
    Bearer {
        held,
        link: Link {
            handle,
            mtu,
            pending,
            terminating,
        },
        present,
        closed,
    }
}

fn counters_in(w: &[u64; 37]) -> Counters
    ensures { result ≡ counters_in w.now }
{
    let next_index = (w[NEXT_INDEX] % IN_32_BITS) as u32;
    let refused_steps = w[REFUSED_STEPS];
    let notified = w[NOTIFIED];
    let wait_from = w[WAIT_FROM];
    let links = w[LINKS];
    Counters {
        next_index,
        refused_steps,
        notified,
        wait_from,
        links,
    }
}

fn counts_in(w: &[u64; 37]) -> Counts
    ensures { result ≡ counts_in w.now }
{
    let waiting = w[WAITING] as usize;
    let results = w[RESULTS] as usize;
    let services = w[SERVICES] as usize;
    let characteristics = w[CHARACTERISTICS] as usize;
    let notifications = w[NOTIFICATIONS] as usize;
    Counts {
        waiting,
        results,
        services,
        characteristics,
        notifications,
    }
}

// The options that a word says: bit 0 is strict.
pub fn options_of(word: u64) -> Options
    ensures { result ≡ options_in word }
{
    let strict = word % 2 == 1;
    Options { strict }
}

// The core that the words say.
pub fn decode(w: &[u64; 37]) -> Core
    ensures { result ≡ core_in w.now }
{
    let running = running_in(w);
    let bearer = bearer_in(w);
    let counters = counters_in(w);
    let counts = counts_in(w);
    let reports = w[REPORTS] as usize;
    let key_count = w[KEY_COUNT] as usize;
    let options = options_of(w[OPTIONS]);
    Core {
        running,
        bearer,
        counters,
        counts,
        reports,
        key_count,
        options,
    }
}

// ---- one number's word
// Kept: a function for each width, since encode's proof takes from its contract that the word says the field again.

fn byte(x: u8) -> u64
    ensures { result % 256 ≡ x }
{
    u64::from(x)
}

fn half(x: u16) -> u64
    ensures { result % two16 ≡ x }
{
    u64::from(x)
}

fn long(x: u32) -> u64
    ensures { result % two32 ≡ x }
{
    u64::from(x)
}

fn bit(x: bool) -> u64
    ensures { flag_in result ≡ x }
{
    u64::from(x)
}

// Words that say the core.
pub fn encode(core: &mut [u64; 37], c: Core)
    ensures { core_in core.new ≡ c }
{
    let r = c.running;
    let at = r.deadline;
    let step = r.step;
    // a running step has its length in a word of its own
    let f = words_step::flat_of(step, 0);
    let ms = f.ms;
    let uuid = f.uuid;
    let b = c.bearer;
    let link = b.link;
    let k = c.counters;
    let n = c.counts;
    let o = c.options;
    *core = [
        at.0,
        long(r.index),
        half(r.cursor),
        byte(r.len),
        byte(r.phase),
        bit(r.active),
        bit(r.dated),
        byte(f.kind),
        bit(f.flag),
        long(ms.0),
        half(f.size),
        uuid.low,
        uuid.high,
        byte(f.aim),
        half(f.latency),
        half(f.timeout),
        half(f.interval),
        b.held as u64,
        half(link.handle),
        half(link.mtu),
        byte(link.pending),
        bit(link.terminating),
        bit(b.present),
        long(k.next_index),
        k.refused_steps,
        k.notified,
        k.wait_from,
        n.waiting as u64,
        n.results as u64,
        n.services as u64,
        n.characteristics as u64,
        n.notifications as u64,
        c.reports as u64,
        c.key_count as u64,
        k.links,
        bit(b.closed),
        bit(o.strict),
    ];
}
