// For ./bench alone: a program that makes several calls, each from more than one place, so that the compiler takes none of them into a
// loop. A round of three calls, to be timed: an advertisement, a scan response and a timer call that ends nothing, in a Scan, of 64
// advertisers, all known.
#![tactic(auto)]

mod rounds;

use tool_bench::begin;
use tool_bench::calls::Lent;
use tool_bench::row::Listening;
use tool_bench_value::calls::ByValue;

#[unsafe(no_mangle)]
pub extern "C" fn lent_mixed(
    n: u32,
    tables: &mut [u64; 1152],
    store: &mut [u8],
    out: &mut [u8],
    data: &[u8],
) -> u64 {
    let r = Listening::Known.row(false);
    begin::lay_tables(tables, r);
    let mut lent = Lent {
        core: begin::core(r),
        tables,
        store,
        out,
    };
    rounds::rounds(&mut lent, n, data)
}

#[unsafe(no_mangle)]
pub extern "C" fn value_mixed(n: u32, store: &mut [u8], out: &mut [u8], data: &[u8]) -> u64 {
    let mut value = ByValue {
        state: tool_bench_value::begin::state(Listening::Known.row(false)),
        store,
        out,
    };
    rounds::rounds(&mut value, n, data)
}
