// For ./bench alone: each call once on lent tables, for the stack that it needs. Tables, store and bytes are the harness's and lie not
// on the stack that is measured; the core, and a batch of steps, are made here. Each answers what its call refuses.
#![tactic(auto)]

mod begun;

use state_refusals::Refusal;
use time::Micros;
use tool_bench::row::Talking;
use tool_bench::{begin, hear, row};

const NOW: Micros = Micros(1000);

// ---- the tables, laid before a call

#[unsafe(no_mangle)]
pub extern "C" fn stack_lay_connecting(tables: &mut [u64; 1152]) {
    begin::lay_tables(tables, begun::connecting());
}

#[unsafe(no_mangle)]
pub extern "C" fn stack_lay_timed(tables: &mut [u64; 1152]) {
    begin::lay_tables(tables, row::timed());
}

#[unsafe(no_mangle)]
pub extern "C" fn stack_lay_talking(tables: &mut [u64; 1152], row: u8) {
    begin::lay_tables(tables, Talking::from(row).row());
}

// ---- the calls: where one checks a wait, its tables are those of fragments

#[unsafe(no_mangle)]
pub extern "C" fn stack_push_steps(
    checks: bool,
    tables: &mut [u64; 1152],
    store: &mut [u8],
    out: &mut [u8],
    values: &[u8],
) -> u8 {
    let core = begun::pushed(checks);
    let steps = begun::batch(checks);
    state_refusals::told_number(
        script_batch::push_steps(core, tables, store, out, NOW, steps, values).refusal,
    )
}

#[unsafe(no_mangle)]
pub extern "C" fn stack_on_timer(
    checks: bool,
    tables: &mut [u64; 1152],
    store: &mut [u8],
    out: &mut [u8],
) -> u8 {
    state_refusals::told_number(
        script_events::on_timer(begun::timed(checks), tables, store, out, NOW).refusal,
    )
}

#[unsafe(no_mangle)]
pub extern "C" fn stack_on_connected(
    checks: bool,
    tables: &mut [u64; 1152],
    store: &mut [u8],
    out: &mut [u8],
) -> u8 {
    state_refusals::told_number(
        script_events::on_connected(begun::connected(checks), tables, store, out, 64, NOW).refusal,
    )
}

#[unsafe(no_mangle)]
pub extern "C" fn stack_on_disconnected(tables: &mut [u64; 1152], store: &mut [u8]) -> u8 {
    let core = begin::core(Talking::Ends.row());
    state_refusals::told_number(script_events::on_disconnected(core, tables, store, NOW).refusal)
}

#[unsafe(no_mangle)]
pub extern "C" fn stack_on_fragment(
    row: u8,
    tables: &mut [u64; 1152],
    store: &mut [u8],
    out: &mut [u8],
    frame: &[u8],
) -> u8 {
    let core = begin::core(Talking::from(row).row());
    state_refusals::told_number(
        link_call::on_fragment(core, tables, store, out, NOW, true, frame).refusal,
    )
}

#[unsafe(no_mangle)]
pub extern "C" fn stack_on_advertising(
    tables: &mut [u64; 1152],
    store: &mut [u8],
    data: &[u8],
) -> u8 {
    let a = radio_calls::on_advertising(
        begin::core(begun::connecting()),
        tables,
        store,
        NOW,
        37,
        hear::ADV_IND,
        hear::address(99),
        data,
        false,
    );
    state_refusals::told_number(a.refusal)
}

#[unsafe(no_mangle)]
pub extern "C" fn stack_on_scan_response(
    tables: &mut [u64; 1152],
    store: &mut [u8],
    data: &[u8],
) -> u8 {
    let core = begin::core(begun::connecting());
    state_refusals::told_number(
        radio_calls::on_scan_response(core, tables, store, NOW, hear::address(0), data).refusal,
    )
}

// ---- the readers

fn told<T: Drop>(answer: Result<T, Refusal>) -> u8 {
    match answer {
        Err(why) => why.number(),
        Ok(_) => 0,
    }
}

#[unsafe(no_mangle)]
pub extern "C" fn stack_timer_us(tables: &[u64; 1152], store: &[u8]) -> u8 {
    told(state_readers::timer_us(begin::core(begun::connecting()), tables, store))
}

#[unsafe(no_mangle)]
pub extern "C" fn stack_connected_handle(tables: &[u64; 1152], store: &[u8]) -> u8 {
    told(state_readers::connected_handle(begin::core(begun::connecting()), tables, store))
}

#[unsafe(no_mangle)]
pub extern "C" fn stack_result(tables: &[u64; 1152], store: &[u8], index: u32) -> u8 {
    told(state_readers::result(begin::core(begun::connecting()), tables, store, index))
}

#[unsafe(no_mangle)]
pub extern "C" fn stack_passed_on(tables: &[u64; 1152], store: &[u8], index: u32) -> u8 {
    told(state_readers::passed_on(begin::core(begun::connecting()), tables, store, index))
}
