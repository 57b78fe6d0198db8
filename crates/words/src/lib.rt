// The tables of a state in words: how many there are, and where each record's words stand. A record has one word in each of its rows.
#![tactic(auto)]

ghost use Rattle.std.specs.Prelude.{◌≡◌, ◌+◌, ◌<◌, ◌≤◌, length, take, drop, leb};
ghost use Rattle.lists.specs.Queue.{all};
ghost use Rattle.words.specs.Rows.{Lowered};
ghost use Rattle.words.specs.Tables.{tables_size};

use time::Millis;
use uuid_value::Uuid;

// What an answer with entries leaves beside the records: how many there are then, the handle of the last entry read, and whether an
// entry had no place.
#[derive(Clone, Copy)]
pub struct Answered {
    pub count: usize,
    pub last: u16,
    pub full: bool,
}

// All words of the tables.
pub const SIZE: usize = 1152;

// Waiting steps, 64 places: what fits in a word, the UUID's halves, a Connect's numbers.
pub const STEP: usize = 0;

pub const STEP_LOW: usize = 64;

pub const STEP_HIGH: usize = 128;

pub const STEP_CONNECT: usize = 192;

// Results, 64 places.
pub const RESULT_AT: usize = 256;

pub const RESULT: usize = 320;

// Services, 32 places.
pub const SERVICE_LOW: usize = 384;

pub const SERVICE_HIGH: usize = 416;

pub const SERVICE: usize = 448;

// Characteristics, 64 places.
pub const CHARACTERISTIC_LOW: usize = 480;

pub const CHARACTERISTIC_HIGH: usize = 544;

pub const CHARACTERISTIC: usize = 608;

// Notifications, 32 places.
pub const NOTIFICATION_AT: usize = 672;

pub const NOTIFICATION: usize = 704;

// Reports, 64 places.
pub const REPORT_WHO: usize = 736;

pub const REPORT_AT: usize = 800;

pub const REPORT: usize = 864;

// The advertisers that the running scan has asked, 128 places.
pub const KEY: usize = 928;

// The link that heard each notification, and what each result heard: rows that came later, behind all others.
pub const NOTIFICATION_LINK: usize = 1056;

pub const RESULT_HEARD: usize = 1088;

// A step taken apart: what its kind does not have is 0. The size is that of its value, or the MTU that it names. A wait with an age has
// its flag set, and the age's 32 bits in latency and timeout.
#[derive(Clone, Copy)]
pub struct Flat {
    pub kind: u8,
    pub flag: bool,
    pub ms: Millis,
    pub size: u16,
    pub uuid: Uuid,
    pub aim: u8,
    pub latency: u16,
    pub timeout: u16,
    pub interval: u16,
}

// How many words are lent. A function that is lent the tables learns here that all of them are there.
pub fn size(tables: &[u64]) -> usize
    ensures { result ≡ length tables.now }
{
    tables.len()
}

// The n words from at on.
pub fn row(tables: &[u64; 1152], at: usize, n: usize) -> &[u64]
    requires { at + n ≤ tables_size }
    ensures { result.now ≡ take n (drop at tables.now) }
{
    &tables[at..at + n]
}

// Whether no word is above the most. It looks at each, so that no branch depends on one.
pub fn all_at_most(words: &[u64], most: u64) -> bool
    ensures { result ≡ all (λ x. leb x most) words.now }
{
    let mut ok = true;
    for word in words {
        ok &= *word <= most;
    }
    ok
}

// Each of the n words from at on gets what the word after it has: the first goes, and the others move down by one.
pub fn lower(tables: &mut [u64; 1152], at: usize, n: usize)
    requires { at + n < tables_size }
    ensures { Lowered tables.old tables.new at n }
{
    tables.copy_within(at + 1..at + 1 + n, at);
}
