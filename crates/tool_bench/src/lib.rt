// For ./bench alone: loops of one call each, on numbers, lent tables and bytes, for a Rust program to time beside the same loops of the
// Rust. Each answers one number of what its calls gave and left, which both sides must agree on. A loop of 0 calls is its set-up alone.
// The crate tool_bench_c exports them.
//
// Each call stands once in Lent, and is made from its loop alone, so that the compiler can take it into the loop; crate tool_bench_mixed
// has callers of several. All seven that change a state are here, as in a program that uses the library: what one call alone needs would
// be compiled into it.
#![tactic(auto)]

pub mod begin;
pub mod calls;
pub mod hear;
pub mod loops;
pub mod play;
pub mod row;
pub mod told;

use calls::Lent;
use row::{Listening, Talking};

// What n advertisements cost.
pub fn lent_advertising(
    n: u32,
    kind: Listening,
    half: bool,
    tables: &mut [u64; 1152],
    store: &mut [u8],
    data: &[u8],
) -> u64 {
    let r = kind.row(half);
    begin::lay_tables(tables, r);
    let mut lent = Lent {
        core: begin::core(r),
        tables,
        store,
        out: &mut [],
    };
    loops::advertising(&mut lent, n, kind.advertisers(), data)
}

// What n batches of 64 steps cost, of waits or of steps that end at once. No step has a value: the lent values may be no bytes.
pub fn lent_batches(
    n: u32,
    ends: bool,
    tables: &mut [u64; 1152],
    store: &mut [u8],
    out: &mut [u8],
    values: &[u8],
) -> u64 {
    let mut lent = Lent {
        core: begin::idle(),
        tables,
        store,
        out,
    };
    loops::batches(&mut lent, n, ends, values)
}

// What n timer calls cost that each end a step; n is at most 64.
pub fn lent_timers(n: u32, tables: &mut [u64; 1152], store: &mut [u8], out: &mut [u8]) -> u64 {
    let r = row::timed();
    begin::lay_tables(tables, r);
    let mut lent = Lent {
        core: begin::core(r),
        tables,
        store,
        out,
    };
    loops::timers(&mut lent, n)
}

// What n links cost that come and go.
pub fn lent_links(n: u32, tables: &mut [u64; 1152], store: &mut [u8], out: &mut [u8]) -> u64 {
    let mut lent = Lent {
        core: begin::idle(),
        tables,
        store,
        out,
    };
    loops::links(&mut lent, n)
}

// What n fragments cost on a state with a link: each is a notification, the response that ends a Read, or discovery's answer. Where a fragment ends a step n is at most 64.
pub fn lent_fragments(
    n: u32,
    kind: Talking,
    start: bool,
    tables: &mut [u64; 1152],
    store: &mut [u8],
    out: &mut [u8],
    fragment: &[u8],
) -> u64 {
    let r = kind.row();
    begin::lay_tables(tables, r);
    let mut lent = Lent {
        core: begin::core(r),
        tables,
        store,
        out,
    };
    loops::fragments(&mut lent, n, start, fragment)
}

// What n notifications cost under a wait that goes on: it looks for `needle` bytes in 32 values of `each`.
pub fn lent_searches(
    n: u32,
    each: u8,
    needle: u8,
    tables: &mut [u64; 1152],
    store: &mut [u8],
    out: &mut [u8],
    fragment: &[u8],
) -> u64 {
    let r = row::searching(each, needle);
    begin::lay_tables(tables, r);
    let mut lent = Lent {
        core: begin::core(r),
        tables,
        store,
        out,
    };
    loops::fragments(&mut lent, n, true, fragment)
}
