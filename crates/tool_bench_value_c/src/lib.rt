// The exports of the crate tool_bench_value for ./bench: each calls its function there.
#![tactic(auto)]

#[unsafe(no_mangle)]
pub extern "C" fn value_advertising(
    n: u32,
    row: u8,
    half: bool,
    store: &mut [u8],
    data: &[u8],
) -> u64 {
    tool_bench_value::value_advertising(n, row.into(), half, store, data)
}

#[unsafe(no_mangle)]
pub extern "C" fn value_batches(
    n: u32,
    ends: bool,
    store: &mut [u8],
    out: &mut [u8],
    values: &[u8],
) -> u64 {
    tool_bench_value::value_batches(n, ends, store, out, values)
}

#[unsafe(no_mangle)]
pub extern "C" fn value_timers(n: u32, store: &mut [u8], out: &mut [u8]) -> u64 {
    tool_bench_value::value_timers(n, store, out)
}

#[unsafe(no_mangle)]
pub extern "C" fn value_links(n: u32, store: &mut [u8], out: &mut [u8]) -> u64 {
    tool_bench_value::value_links(n, store, out)
}

#[unsafe(no_mangle)]
pub extern "C" fn value_fragments(
    n: u32,
    row: u8,
    start: bool,
    store: &mut [u8],
    out: &mut [u8],
    fragment: &[u8],
) -> u64 {
    tool_bench_value::value_fragments(n, row.into(), start, store, out, fragment)
}

#[unsafe(no_mangle)]
pub extern "C" fn value_searches(
    n: u32,
    each: u8,
    needle: u8,
    store: &mut [u8],
    out: &mut [u8],
    fragment: &[u8],
) -> u64 {
    tool_bench_value::value_searches(n, each, needle, store, out, fragment)
}
