// The states that the loops begin with. In all of them 64 advertisers are heard, and every table has something in each of its places,
// live or not. The harness puts into the store what stands there: reports, values of steps and of notifications.
ghost use Rattle.std.specs.Prelude.{◌+◌, ◌≤◌};
ghost use Rattle.words.specs.Tables.{tables_size};

use crate::hear;
use crate::row::Row;
use state::{Bearer, Link, Options, Running};
use state_core::Core;
use uuid_value::Uuid;

// A service, or a characteristic, that no one lists.
pub const UNLISTED: Uuid = Uuid { low: 1, high: 2 };

// From handle 1 to 255.
const SERVICE: u64 = 0x00FF_0001;

// Declaration and value at handle 1, no properties, no CCCD known. Added to itself it is at the next handle.
const CHARACTERISTIC: u64 = 0x0001_0001_0000_0000;

// Of handle 1; where its length stands.
const NOTIFICATION: u64 = 1;

const LENGTH: u64 = 0x0100_0000_0000_0000;

// 31 bytes in an ADV_IND on channel 37; where the length of its scan response stands, and the bit of none.
const REPORT: u64 = 0x001F_0025;

const RESPONSE: u64 = 0x0100_0000;

// Kept: a bit that stands for none, since a report's words have it there (crate words_report).
const NO_RESPONSE: u64 = 0x1_0000_0000;

fn running(r: Row) -> Running {
    Running {
        deadline: r.deadline,
        step: r.step,
        index: 0,
        cursor: 1,
        len: r.len,
        phase: r.phase,
        active: true,
        dated: true,
    }
}

fn bearer(r: Row) -> Bearer {
    Bearer {
        held: 0,
        link: Link {
            handle: crate::row::HANDLE,
            mtu: 247,
            pending: r.pending,
            terminating: false,
        },
        present: r.linked,
        closed: false,
    }
}

pub fn core(r: Row) -> Core {
    Core {
        running: running(r),
        bearer: bearer(r),
        counters: r.counters,
        counts: r.counts,
        reports: 64,
        key_count: r.asked,
        options: Options { strict: false },
    }
}

// Nothing runs, nothing waits, no link.
pub fn idle() -> Core {
    let mut c = core(crate::row::timed());
    c.running.active = false;
    c.counts.waiting = 0;
    c.reports = 0;
    c
}

// n words from at on: the first, and each after it more than the one before.
fn lay(tables: &mut [u64; 1152], at: usize, n: usize, first: u64, by: u64)
    requires { at + n ≤ tables_size }
{
    let mut word = first;
    for place in &mut tables[at..at + n] {
        *place = word;
        word = word.wrapping_add(by);
    }
}

// Every waiting step is the same.
fn lay_steps(tables: &mut [u64; 1152], r: Row) {
    words_step::put_step(tables, 0, r.step, r.len);
    let word = tables[words::STEP];
    let low = tables[words::STEP_LOW];
    let high = tables[words::STEP_HIGH];
    let connect = tables[words::STEP_CONNECT];
    lay(tables, words::STEP, 64, word, 0);
    lay(tables, words::STEP_LOW, 64, low, 0);
    lay(tables, words::STEP_HIGH, 64, high, 0);
    lay(tables, words::STEP_CONNECT, 64, connect, 0);
}

// What is kept of every notification, of so many bytes.
fn notification_word(heard: u8) -> u64 {
    NOTIFICATION + LENGTH * u64::from(heard)
}

fn lay_known(tables: &mut [u64; 1152], r: Row) {
    lay(tables, words::SERVICE_LOW, 32, UNLISTED.low, 0);
    lay(tables, words::SERVICE_HIGH, 32, UNLISTED.high, 0);
    lay(tables, words::SERVICE, 32, SERVICE, 0);
    lay(tables, words::CHARACTERISTIC_LOW, 64, UNLISTED.low, 0);
    lay(tables, words::CHARACTERISTIC_HIGH, 64, UNLISTED.high, 0);
    lay(
        tables,
        words::CHARACTERISTIC,
        64,
        CHARACTERISTIC,
        CHARACTERISTIC,
    );
    lay(tables, words::NOTIFICATION_AT, 32, 0, 0);
    lay(
        tables,
        words::NOTIFICATION,
        32,
        notification_word(r.heard),
        0,
    );
}

// What is heard of every advertiser.
fn report_word(response: Option<u8>) -> u64 {
    match response {
        Some(len) => REPORT + RESPONSE * u64::from(len),
        None => REPORT + NO_RESPONSE,
    }
}

fn lay_heard(tables: &mut [u64; 1152], r: Row) {
    lay(tables, words::REPORT_WHO, 64, hear::key(r.first), 1);
    lay(tables, words::REPORT_AT, 64, 1, 0);
    lay(tables, words::REPORT, 64, report_word(r.response), 0);
    lay(tables, words::KEY, 128, hear::key(0), 1);
}

// All tables of a row's state.
pub fn lay_tables(tables: &mut [u64; 1152], r: Row) {
    lay_steps(tables, r);
    lay(tables, words::RESULT_AT, 64, 0, 0);
    lay(tables, words::RESULT, 64, 0, 0);
    lay_known(tables, r);
    lay_heard(tables, r);
}
