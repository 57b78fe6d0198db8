// The kept results in the tables' words: the time of each in one row, what it heard in another, all else in a third.
#![tactic(auto)]

ghost use Rattle.std.specs.Prelude.{◌≡◌, ◌+◌, ◌*◌, ◌/◌, ◌%◌, ◌≤◌, ◌<◌, get_or, set, take};
ghost use Rattle.state_places.specs.Sizes.{most_results};
ghost use Rattle.lists.specs.Queue.{shifted};
ghost use Rattle.state.specs.Fresh.{no_result};
ghost use Rattle.state_rules.specs.Fit.{results_fit};
ghost use Rattle.script_rules.specs.Finish.{pushed_result};
ghost use Rattle.words.specs.Words.{two56, status_of, result_of};
ghost use Rattle.words.specs.Tables.{results_in};
ghost use Rattle.words.specs.Tables as all;
ghost use Rattle.words_result.specs.Results.{results_as};

use state::{StepResult, StepStatus};
use time::Micros;

// How many numbers 8 bits have.
const BYTE: u64 = 256;

// Where the fields of a result's word begin, each as a power of two; the index is below them.
const STATUS: u64 = 4_294_967_296;

const CODE: u64 = 1_099_511_627_776;

const LENGTH: u64 = 72_057_594_037_927_936;

// 247 * 2^56: a result whose value fits its place has a word below this.
const LENGTH_END: u64 = 17_798_225_727_368_200_192;

// The last place of the table.
const LAST: usize = state_places::MAX_RESULTS - 1;

// ---- a result to its word

// A status in 16 bits: its kind in the low 8, its code in the others.
#[tactic(auto, unfolding(words::specs::Words::status_of))]
fn status_bits(s: StepStatus) -> u64
    ensures result_value { status_of (result % 256) (result / 256) ≡ s }
    ensures small { result < 65536 }
{
    match s {
        StepStatus::Ok => 0,
        StepStatus::Timeout => 1,
        StepStatus::NotConnected => 2,
        StepStatus::NotFound => 3,
        StepStatus::AttError(code) => 4 + BYTE * u64::from(code),
        StepStatus::TooLong => 5,
        StepStatus::Disconnected => 6,
        StepStatus::TableFull => 7,
        StepStatus::BearerClosed => 8,
    }
}

// All of a result but its time and what it heard.
fn word_of(r: StepResult) -> u64
    ensures { result_of r.at.0 result r.heard ≡ r }
{
    let bits = status_bits(r.status);
    u64::from(r.index) + STATUS * bits + LENGTH * u64::from(r.len)
}

// ---- a result from its word

#[tactic(auto, unfolding(words::specs::Words::status_of))]
fn status_of(kind: u8, code: u8) -> StepStatus
    ensures { result ≡ status_of kind code }
{
    match kind {
        0 => StepStatus::Ok,
        1 => StepStatus::Timeout,
        2 => StepStatus::NotConnected,
        3 => StepStatus::NotFound,
        4 => StepStatus::AttError(code),
        5 => StepStatus::TooLong,
        6 => StepStatus::Disconnected,
        8 => StepStatus::BearerClosed,
        _ => StepStatus::TableFull,
    }
}

#[tactic(auto, unfolding(words::specs::Words::result_of))]
fn result_of(at: Micros, word: u64, heard: u64) -> StepResult
    ensures { result ≡ result_of at.0 word heard }
{
    let index = (word % STATUS) as u32;
    let kind = (word / STATUS % BYTE) as u8;
    let code = (word / CODE % BYTE) as u8;
    let status = status_of(kind, code);
    let len = (word / LENGTH) as u8;
    StepResult {
        index,
        at,
        status,
        len,
        heard,
    }
}

// ---- the table

// The result in place i.
pub fn result_at(tables: &[u64; 1152], i: usize) -> StepResult
    requires { i < most_results }
    ensures { result ≡ get_or (results_in tables.now) i no_result }
{
    let at = Micros(tables[words::RESULT_AT + i]);
    let word = tables[words::RESULT + i];
    let heard = tables[words::RESULT_HEARD + i];
    result_of(at, word, heard)
}

// A result goes into place i.
fn put_result(tables: &mut [u64; 1152], i: usize, r: StepResult)
    requires { i < most_results }
    ensures { all.tables tables.new ≡ all.with_results (all.tables tables.old) (set (results_in tables.old) i r) }
{
    tables[words::RESULT_AT + i] = r.at.0;
    tables[words::RESULT + i] = word_of(r);
    tables[words::RESULT_HEARD + i] = r.heard;
}

// The oldest result goes, the others move down by one.
fn shift_results(tables: &mut [u64; 1152])
    ensures { all.tables tables.new ≡ all.with_results (all.tables tables.old) (shifted (results_in tables.old) 63) }
{
    words::lower(tables, words::RESULT_AT, LAST);
    words::lower(tables, words::RESULT, LAST);
    words::lower(tables, words::RESULT_HEARD, LAST);
}

// Keeps one result more, behind count others, and returns how many there are then: where all places are taken, the oldest goes.
pub fn push_result(tables: &mut [u64; 1152], count: usize, r: StepResult) -> usize
    requires { count ≤ most_results }
    ensures { (all.tables tables.new ≡ all.with_results (all.tables tables.old) (pushed_result (results_as tables.old count) r).kept)
        × (result ≡ (pushed_result (results_as tables.old count) r).count) }
{
    if count < state_places::MAX_RESULTS {
        put_result(tables, count, r);
        return count + 1;
    }
    shift_results(tables);
    put_result(tables, LAST, r);
    count
}

// Whether the value of each of the first count results fits its place.
pub fn results_fit(tables: &[u64; 1152], count: usize) -> bool
    requires { count ≤ most_results }
    ensures { result ≡ results_fit (take count (results_in tables.now)) }
{
    words::all_at_most(words::row(tables, words::RESULT, count), LENGTH_END - 1)
}
