// Waiting steps in the lent words: a step and its value's length in one word of each of four rows.
#![tactic(auto)]

ghost use Rattle.std.specs.Prelude.{◌≡◌, ◌↔◌, IsTrue, EachIndex, slice_index, true, ◌/◌, ◌%◌, ◌≤◌, ◌<◌, take, get_or, set};
ghost use Rattle.bytes_base.specs.Choice.{pick};
ghost use Rattle.state_kinds.specs.Kinds.{carries};
ghost use Rattle.state_places.specs.Sizes.{most_steps};
ghost use Rattle.lists.specs.Queue.{shifted};
ghost use Rattle.adv_reports.specs.Key.{address_of};
ghost use Rattle.notifications.specs.declared.Age.TheVariants.{Within};
ghost use Rattle.state.specs.declared.Step.TheVariants.{WaitNotification};
ghost use Rattle.state.specs.Fresh.{no_queued};
ghost use Rattle.state_rules.specs.Fit.{steps_fit};
ghost use Rattle.words.specs.Words.{two16, two32, two48, half_at, bit_at, target_of, age_of, step_of, len_of, queued_of, flat_of};
ghost use Rattle.words.specs.Tables.{word, steps_in};
ghost use Rattle.words.specs.Tables as all;
ghost use Rattle.words_step.specs.Carried.{carried};
ghost use Rattle.words_step.specs.Fits.{word_fits};

use notifications::Age;
use state::{Address, Queued, Step, Target};
use time::Millis;
use uuid_value::Uuid;
use words::Flat;

// Where the fields of the first word begin, after the kind's 8 bits: 2^8, 2^16, 2^48.
const FLAG_AT: u64 = 256;

const MS_AT: u64 = 65_536;

const SIZE_AT: u64 = 281_474_976_710_656;

// Where those of a Connect's word begin, after 16 bits for what it aims at: 2^16, 2^32, 2^48.
const LATENCY_AT: u64 = 65_536;

const TIMEOUT_AT: u64 = 4_294_967_296;

const INTERVAL_AT: u64 = 281_474_976_710_656;

// How many numbers 8, 16 and 32 bits have.
const IN_8_BITS: u64 = 256;

const IN_16_BITS: u64 = 65_536;

const IN_32_BITS: u64 = 4_294_967_296;

// Where the high half of an age begins: 2^16.
const AGE_HIGH: u32 = 65_536;

// A length is the low 8 bits of a size.
const LENGTHS: u16 = 256;

// What a Connect aims at: any advertiser, or that of an address; else one with a service.
const AIM_ANY: u8 = 0;

const AIM_ADDRESS: u8 = 1;

const AIM_SERVICE: u8 = 2;

// The most bytes of a step's value.
const MAX_VALUE: u16 = state_places::MAX_VALUE as u16;

// 245 * 2^48: a first word below it has a size of at most 244, and that fits every kind.
const SHORT_BELOW: u64 = 68_961_369_294_110_720;

// A target taken apart.
#[derive(Clone, Copy)]
struct Aim {
    aim: u8,
    uuid: Uuid,
}

// ---- a step taken apart

// An address as a number.
fn number_of(a: Address) -> u64
    ensures { address_of result ≡ a }
{
    adv_reports::key_of(a)
}

#[tactic(auto, unfolding(words::specs::Words::target_of))]
fn aim_of(target: Target) -> Aim
    ensures { target_of result.aim result.uuid ≡ target }
{
    match target {
        Target::Any => Aim {
            aim: AIM_ANY,
            uuid: Uuid { low: 0, high: 0 },
        },
        Target::Address(a) => {
            let low = number_of(a);
            Aim {
                aim: AIM_ADDRESS,
                uuid: Uuid { low, high: 0 },
            }
        }
        Target::Service(uuid) => Aim {
            aim: AIM_SERVICE,
            uuid,
        },
    }
}

// What the step's kind does not have is 0. A wait with an age has its halves where a Connect has its latency and its timeout.
#[tactic(auto, unfolding(words::specs::Words::step_of, words::specs::Words::len_of))]
pub fn flat_of(step: Step, len: u8) -> Flat
    ensures { (step_of result ≡ step) × (len_of result ≡ pick (carries step) len 0) }
{
    let plain = Flat {
        kind: state_kinds::kind_of(step),
        flag: false,
        ms: Millis(0),
        size: 0,
        uuid: Uuid { low: 0, high: 0 },
        aim: 0,
        latency: 0,
        timeout: 0,
        interval: 0,
    };
    let size = len as u16;
    match step {
        Step::Scan { ms } => Flat { ms, ..plain },
        Step::Connect {
            target,
            interval,
            latency,
            timeout,
            within_ms: ms,
        } => {
            let to = aim_of(target);
            Flat {
                aim: to.aim,
                uuid: to.uuid,
                ms,
                interval,
                latency,
                timeout,
                ..plain
            }
        }
        Step::ExchangeMtu { mtu: size } => Flat { size, ..plain },
        Step::DiscoverServices => plain,
        Step::DiscoverCharacteristics { service: uuid } => Flat { uuid, ..plain },
        Step::Subscribe {
            characteristic: uuid,
            indicate: flag,
        } => Flat {
            uuid,
            flag,
            ..plain
        },
        Step::Write {
            characteristic: uuid,
            with_response: flag,
        } => Flat {
            uuid,
            flag,
            size,
            ..plain
        },
        Step::Read {
            characteristic: uuid,
        } => Flat { uuid, ..plain },
        Step::WaitNotification {
            characteristic: uuid,
            within_ms: ms,
            age,
        } => match age {
            Age::Any => Flat {
                uuid,
                ms,
                size,
                ..plain
            },
            Age::Within(most) => Flat {
                uuid,
                ms,
                size,
                flag: true,
                latency: (most.0 % AGE_HIGH) as u16,
                timeout: (most.0 / AGE_HIGH) as u16,
                ..plain
            },
        },
        Step::Wait { ms } => Flat { ms, ..plain },
        Step::Disconnect => plain,
        Step::Capture { enabled: flag } => Flat { flag, ..plain },
        Step::CaptureSecrets { secrets: flag } => Flat { flag, ..plain },
    }
}

// ---- a step put together

#[tactic(auto, unfolding(words::specs::Words::target_of))]
fn target_of(aim: u8, uuid: Uuid) -> Target
    ensures { result ≡ target_of aim uuid }
{
    match aim {
        AIM_ANY => Target::Any,
        AIM_ADDRESS => {
            let a = adv_reports::address_of(uuid.low);
            Target::Address(a)
        }
        _ => Target::Service(uuid),
    }
}

fn age_of(f: Flat) -> Age
    ensures { result ≡ age_of f }
{
    if f.flag {
        let low = u32::from(f.latency);
        let high = u32::from(f.timeout);
        let ms = low + AGE_HIGH * high;
        Age::Within(Millis(ms))
    } else {
        Age::Any
    }
}

#[tactic(auto, unfolding(words::specs::Words::step_of))]
pub fn step_of(f: Flat) -> Step
    ensures { result ≡ step_of f }
{
    let kind = f.kind;
    let ms = f.ms;
    let uuid = f.uuid;
    let flag = f.flag;
    match kind {
        state_kinds::SCAN => Step::Scan { ms },
        state_kinds::CONNECT => {
            let target = target_of(f.aim, uuid);
            Step::Connect {
                target,
                interval: f.interval,
                latency: f.latency,
                timeout: f.timeout,
                within_ms: ms,
            }
        }
        state_kinds::EXCHANGE_MTU => Step::ExchangeMtu { mtu: f.size },
        state_kinds::DISCOVER_SERVICES => Step::DiscoverServices,
        state_kinds::DISCOVER_CHARACTERISTICS => Step::DiscoverCharacteristics { service: uuid },
        state_kinds::SUBSCRIBE => Step::Subscribe {
            characteristic: uuid,
            indicate: flag,
        },
        state_kinds::WRITE => Step::Write {
            characteristic: uuid,
            with_response: flag,
        },
        state_kinds::READ => Step::Read {
            characteristic: uuid,
        },
        state_kinds::WAIT_NOTIFICATION => {
            let age = age_of(f);
            Step::WaitNotification {
                characteristic: uuid,
                within_ms: ms,
                age,
            }
        }
        state_kinds::WAIT => Step::Wait { ms },
        state_kinds::DISCONNECT => Step::Disconnect,
        state_kinds::CAPTURE => Step::Capture { enabled: flag },
        _ => Step::CaptureSecrets { secrets: flag },
    }
}

// The length of its value: 0 where its kind carries none.
#[tactic(auto, unfolding(words::specs::Words::len_of))]
fn len_of(f: Flat) -> u8
    ensures { result ≡ len_of f }
{
    match f.kind {
        state_kinds::WRITE | state_kinds::WAIT_NOTIFICATION => (f.size % LENGTHS) as u8,
        _ => 0,
    }
}

// ---- the words

fn first_word(f: Flat) -> u64
    ensures { (result % 256 ≡ f.kind) × (bit_at 256 result ≡ f.flag) × (result / two16 % two32 ≡ f.ms.0) × (result / two48 ≡ f.size) }
{
    let kind = u64::from(f.kind);
    let flag = u64::from(f.flag);
    let ms = u64::from(f.ms.0);
    let size = u64::from(f.size);
    kind + FLAG_AT * flag + MS_AT * ms + SIZE_AT * size
}

fn connect_word(f: Flat) -> u64
    ensures { (result % 256 ≡ f.aim) × (half_at two16 result ≡ f.latency) × (half_at two32 result ≡ f.timeout) × (result / two48 ≡ f.interval) }
{
    let aim = u64::from(f.aim);
    let latency = u64::from(f.latency);
    let timeout = u64::from(f.timeout);
    let interval = u64::from(f.interval);
    aim + LATENCY_AT * latency + TIMEOUT_AT * timeout + INTERVAL_AT * interval
}

// The 16 bits at the top.
fn top(word: u64) -> u16
    ensures { result ≡ word / two48 }
{
    (word / SIZE_AT) as u16
}

// What the words of place i say.
fn flat_at(tables: &[u64; 1152], i: usize) -> Flat
    requires { i < most_steps }
    ensures { result ≡ flat_of (word tables.now 0 i) (word tables.now 64 i) (word tables.now 128 i) (word tables.now 192 i) }
{
    let a = tables[words::STEP + i];
    let low = tables[words::STEP_LOW + i];
    let high = tables[words::STEP_HIGH + i];
    let d = tables[words::STEP_CONNECT + i];
    let kind = (a % IN_8_BITS) as u8;
    let flag = a / FLAG_AT % 2 == 1;
    let ms = (a / MS_AT % IN_32_BITS) as u32;
    let size = top(a);
    let aim = (d % IN_8_BITS) as u8;
    let latency = (d / LATENCY_AT % IN_16_BITS) as u16;
    let timeout = (d / TIMEOUT_AT % IN_16_BITS) as u16;
    let interval = top(d);
    Flat {
        kind,
        flag,
        ms: Millis(ms),
        size,
        uuid: Uuid { low, high },
        aim,
        latency,
        timeout,
        interval,
    }
}

// The step that waits in place i, with the length of its value.
pub fn queued_at(tables: &[u64; 1152], i: usize) -> Queued
    requires { i < most_steps }
    ensures { result ≡ get_or (steps_in tables.now) i no_queued }
{
    let f = flat_at(tables, i);
    Queued {
        step: step_of(f),
        len: len_of(f),
    }
}

// Four words go into place i.
fn put_words(tables: &mut [u64; 1152], i: usize, a: u64, low: u64, high: u64, d: u64)
    requires { i < most_steps }
    ensures { all.tables tables.new ≡ all.with_steps (all.tables tables.old) (set (steps_in tables.old) i (queued_of (flat_of a low high d))) }
{
    tables[words::STEP + i] = a;
    tables[words::STEP_LOW + i] = low;
    tables[words::STEP_HIGH + i] = high;
    tables[words::STEP_CONNECT + i] = d;
}

// A step goes into place i, with the length of its value if its kind carries one.
pub fn put_step(tables: &mut [u64; 1152], i: usize, step: Step, len: u8)
    requires { i < most_steps }
    ensures { all.tables tables.new ≡ all.with_steps (all.tables tables.old) (set (steps_in tables.old) i (carried step len)) }
{
    let f = flat_of(step, len);
    let uuid = f.uuid;
    let a = first_word(f);
    let d = connect_word(f);
    put_words(tables, i, a, uuid.low, uuid.high, d);
}

// The first goes, and n others move down by one.
pub fn shift_steps(tables: &mut [u64; 1152], n: usize)
    requires { n < most_steps }
    ensures { all.tables tables.new ≡ all.with_steps (all.tables tables.old) (shifted (steps_in tables.old) n) }
{
    words::lower(tables, words::STEP, n);
    words::lower(tables, words::STEP_LOW, n);
    words::lower(tables, words::STEP_HIGH, n);
    words::lower(tables, words::STEP_CONNECT, n);
}

// ---- fit

// Whether a batch accepts the step of this first word.
fn word_fits(a: u64) -> bool
    ensures { result ≡ word_fits a }
{
    let kind = (a % IN_8_BITS) as u8;
    let size = top(a);
    let carries = (kind == state_kinds::WRITE) | (kind == state_kinds::WAIT_NOTIFICATION);
    (!carries | (size % LENGTHS <= MAX_VALUE))
        & (!(kind == state_kinds::EXCHANGE_MTU) | (size <= state_rules::MAX_MTU))
}

// Whether each of these first words is of a step that a batch accepts.
fn each_fits(words: &[u64]) -> bool
    ensures { IsTrue result ↔ EachIndex words.now (λ k. word_fits (slice_index words.now k) ≡ true) }
{
    words.iter().all(|word| word_fits(*word))
}

// Whether each of the first count steps is as a batch accepts it.
pub fn steps_fit(tables: &[u64; 1152], count: usize) -> bool
    requires { count ≤ most_steps }
    ensures { result ≡ steps_fit (take count (steps_in tables.now)) }
{
    let words = words::row(tables, words::STEP, count);
    // The sizes alone may say so of every step, with no look at its kind.
    words::all_at_most(words, SHORT_BELOW - 1) || each_fits(words)
}
