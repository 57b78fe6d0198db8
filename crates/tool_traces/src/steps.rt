// Batches: the time, the count, a record of 40 bytes for each step, the values (docs/TRACE.md, 'A batch').
ghost use Rattle.std.specs.Prelude.{◌<◌, ◌≤◌};
ghost use Rattle.std.specs.Slice.Iter.{chunks_size};

use crate::record;
use crate::record::Bad;
use notifications::Age;
use script_rules::{Batch, Placed};
use state::{Address, Step, Target};
use std::slice::Chunks;
use time::Millis;
use uuid_value::Uuid;

// Targets of a Connect.
const ADDRESS: u8 = 1;

const SERVICE: u8 = 2;

const COUNT_AT: usize = 8;

const STEPS_AT: usize = 12;

const STEP: usize = 40;

const MOST_VALUES: usize = 16_384;

// Places in a step record.
const FLAG_AT: usize = 1;

const RANDOM_AT: usize = 2;

const MS_AT: usize = 4;

const INTERVAL_AT: usize = 8;

const MTU_AT: usize = 8;

const AGE_AT: usize = 8;

const LATENCY_AT: usize = 10;

const TIMEOUT_AT: usize = 12;

const UUID_AT: usize = 16;

const ADDRESS_AT: usize = 16;

const PLACE_AT: usize = 32;

const LEN_AT: usize = 36;

// ---- the shape

pub fn count_of(body: &[u8]) -> usize {
    bytes_numbers::le32(body, COUNT_AT) as usize
}

// No more records stand there than a batch may have.
fn here_of(count: usize) -> usize
    ensures { result ≤ 64 }
{
    count.min(state_places::MAX_STEPS)
}

// Where the values begin.
pub fn values_at(body: &[u8]) -> usize
    ensures { result ≤ 2572 }
{
    STEPS_AT + STEP * here_of(count_of(body))
}

// The step records, if all of them stand there.
fn records(body: &[u8]) -> Chunks<'_, u8>
    ensures { 0 < chunks_size result }
{
    let steps = body.get(STEPS_AT..values_at(body)).unwrap_or(&[]);
    steps.chunks(STEP)
}

fn is_good_target(r: &[u8]) -> bool {
    match record::byte(r, FLAG_AT) {
        ADDRESS => record::is_flag(r, RANDOM_AT),
        target => target <= SERVICE,
    }
}

fn is_good_step(r: &[u8]) -> bool {
    match record::byte(r, 0) {
        state_kinds::CONNECT => is_good_target(r),
        state_kinds::SUBSCRIBE => record::is_flag(r, FLAG_AT),
        state_kinds::WRITE => record::is_flag(r, FLAG_AT),
        state_kinds::WAIT_NOTIFICATION => record::is_flag(r, FLAG_AT),
        state_kinds::CAPTURE => record::is_flag(r, FLAG_AT),
        state_kinds::CAPTURE_SECRETS => record::is_flag(r, FLAG_AT),
        kind => kind < state_kinds::CAPTURE,
    }
}

// A batch whose records stand there, with good fields, and with not too many values.
pub fn check(body: &[u8]) -> Result<(), Bad> {
    let values = body.get(values_at(body)..).ok_or(Bad::Length)?;
    if MOST_VALUES < values.len() {
        return Err(Bad::Length);
    }
    if !records(body).all(is_good_step) {
        return Err(Bad::Field);
    }
    Ok(())
}

// ---- the steps

// An address of 6 bytes, the least significant first.
pub fn address(s: &[u8], at: usize, random: bool) -> Address {
    let a = s.get(at..).unwrap_or(&[]);
    Address {
        low: bytes_numbers::le32(a, 0),
        high: bytes_numbers::le16(a, 4),
        random,
    }
}

fn target(r: &[u8]) -> Target {
    match record::byte(r, FLAG_AT) {
        ADDRESS => Target::Address(address(r, ADDRESS_AT, record::byte(r, RANDOM_AT) == 1)),
        SERVICE => Target::Service(Uuid::from_128(r, UUID_AT)),
        _ => Target::Any,
    }
}

fn connect(r: &[u8]) -> Step {
    Step::Connect {
        target: target(r),
        interval: bytes_numbers::le16(r, INTERVAL_AT),
        latency: bytes_numbers::le16(r, LATENCY_AT),
        timeout: bytes_numbers::le16(r, TIMEOUT_AT),
        within_ms: Millis(bytes_numbers::le32(r, MS_AT)),
    }
}

// The age of a wait, if its flag says that it has one.
fn age(r: &[u8]) -> Age {
    if record::byte(r, FLAG_AT) == 1 {
        return Age::Within(Millis(bytes_numbers::le32(r, AGE_AT)));
    }
    Age::Any
}

fn step_of(r: &[u8]) -> Step {
    let ms = Millis(bytes_numbers::le32(r, MS_AT));
    let uuid = Uuid::from_128(r, UUID_AT);
    let set = record::byte(r, FLAG_AT) == 1;
    match record::byte(r, 0) {
        state_kinds::SCAN => Step::Scan { ms },
        state_kinds::CONNECT => connect(r),
        state_kinds::EXCHANGE_MTU => Step::ExchangeMtu {
            mtu: bytes_numbers::le16(r, MTU_AT),
        },
        state_kinds::DISCOVER_SERVICES => Step::DiscoverServices,
        state_kinds::DISCOVER_CHARACTERISTICS => Step::DiscoverCharacteristics { service: uuid },
        state_kinds::SUBSCRIBE => Step::Subscribe {
            characteristic: uuid,
            indicate: set,
        },
        state_kinds::WRITE => Step::Write {
            characteristic: uuid,
            with_response: set,
        },
        state_kinds::READ => Step::Read {
            characteristic: uuid,
        },
        state_kinds::WAIT_NOTIFICATION => Step::WaitNotification {
            characteristic: uuid,
            within_ms: ms,
            age: age(r),
        },
        state_kinds::WAIT => Step::Wait { ms },
        state_kinds::DISCONNECT => Step::Disconnect,
        state_kinds::CAPTURE => Step::Capture { enabled: set },
        _ => Step::CaptureSecrets { secrets: set },
    }
}

fn placed_of(r: &[u8]) -> Placed {
    Placed {
        step: step_of(r),
        place: bytes_numbers::le32(r, PLACE_AT) as usize,
        len: bytes_numbers::le32(r, LEN_AT) as usize,
    }
}

const UNPLACED: Placed = Placed {
    step: Step::Scan { ms: Millis(0) },
    place: 0,
    len: 0,
};

pub fn batch_of(body: &[u8]) -> Batch {
    let mut steps = [UNPLACED; 64];
    for (step, r) in steps.iter_mut().zip(records(body)) {
        *step = placed_of(r);
    }
    Batch {
        steps,
        count: count_of(body),
    }
}
