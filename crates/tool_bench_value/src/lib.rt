// For ./bench alone, as crate tool_bench: the same loops, of the calls that take a state by value and give it back.
// The crate tool_bench_value_c exports them.
#![tactic(auto)]

pub mod begin;
pub mod calls;

use calls::ByValue;
use tool_bench::row::{Listening, Talking};
use tool_bench::{loops, row};

// What n advertisements cost, by the rows of lent_advertising.
pub fn value_advertising(
    n: u32,
    kind: Listening,
    half: bool,
    store: &mut [u8],
    data: &[u8],
) -> u64 {
    let mut value = ByValue {
        state: begin::state(kind.row(half)),
        store,
        out: &mut [],
    };
    loops::advertising(&mut value, n, kind.advertisers(), data)
}

// What n batches of 64 steps cost, of waits or of steps that end at once. No step has a value: the lent values may be no bytes.
pub fn value_batches(n: u32, ends: bool, store: &mut [u8], out: &mut [u8], values: &[u8]) -> u64 {
    let mut value = ByValue {
        state: central::fresh::fresh(),
        store,
        out,
    };
    loops::batches(&mut value, n, ends, values)
}

// What n timer calls cost that each end a step; n is at most 64.
pub fn value_timers(n: u32, store: &mut [u8], out: &mut [u8]) -> u64 {
    let mut value = ByValue {
        state: begin::state(row::timed()),
        store,
        out,
    };
    loops::timers(&mut value, n)
}

// What n links cost that come and go.
pub fn value_links(n: u32, store: &mut [u8], out: &mut [u8]) -> u64 {
    let mut value = ByValue {
        state: central::fresh::fresh(),
        store,
        out,
    };
    loops::links(&mut value, n)
}

// What n fragments cost, by the rows of lent_fragments.
pub fn value_fragments(
    n: u32,
    kind: Talking,
    start: bool,
    store: &mut [u8],
    out: &mut [u8],
    fragment: &[u8],
) -> u64 {
    let mut value = ByValue {
        state: begin::state(kind.row()),
        store,
        out,
    };
    loops::fragments(&mut value, n, start, fragment)
}

// What n notifications cost under a wait that goes on, as lent_searches.
pub fn value_searches(
    n: u32,
    each: u8,
    needle: u8,
    store: &mut [u8],
    out: &mut [u8],
    fragment: &[u8],
) -> u64 {
    let mut value = ByValue {
        state: begin::state(row::searching(each, needle)),
        store,
        out,
    };
    loops::fragments(&mut value, n, true, fragment)
}
