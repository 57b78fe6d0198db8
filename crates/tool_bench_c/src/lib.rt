// The exports of the crate tool_bench for ./bench: each calls its function there.
#![tactic(auto)]

#[unsafe(no_mangle)]
pub extern "C" fn lent_advertising(
    n: u32,
    row: u8,
    half: bool,
    tables: &mut [u64; 1152],
    store: &mut [u8],
    data: &[u8],
) -> u64 {
    tool_bench::lent_advertising(n, row.into(), half, tables, store, data)
}

#[unsafe(no_mangle)]
pub extern "C" fn lent_batches(
    n: u32,
    ends: bool,
    tables: &mut [u64; 1152],
    store: &mut [u8],
    out: &mut [u8],
    values: &[u8],
) -> u64 {
    tool_bench::lent_batches(n, ends, tables, store, out, values)
}

#[unsafe(no_mangle)]
pub extern "C" fn lent_timers(
    n: u32,
    tables: &mut [u64; 1152],
    store: &mut [u8],
    out: &mut [u8],
) -> u64 {
    tool_bench::lent_timers(n, tables, store, out)
}

#[unsafe(no_mangle)]
pub extern "C" fn lent_links(
    n: u32,
    tables: &mut [u64; 1152],
    store: &mut [u8],
    out: &mut [u8],
) -> u64 {
    tool_bench::lent_links(n, tables, store, out)
}

#[unsafe(no_mangle)]
pub extern "C" fn lent_fragments(
    n: u32,
    row: u8,
    start: bool,
    tables: &mut [u64; 1152],
    store: &mut [u8],
    out: &mut [u8],
    fragment: &[u8],
) -> u64 {
    tool_bench::lent_fragments(n, row.into(), start, tables, store, out, fragment)
}

#[unsafe(no_mangle)]
pub extern "C" fn lent_searches(
    n: u32,
    each: u8,
    needle: u8,
    tables: &mut [u64; 1152],
    store: &mut [u8],
    out: &mut [u8],
    fragment: &[u8],
) -> u64 {
    tool_bench::lent_searches(n, each, needle, tables, store, out, fragment)
}
