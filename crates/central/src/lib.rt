// The calls of a central on a state that goes in by value and comes back: each lends its tables to the call of the same name.
#![tactic(auto)]

ghost use Rattle.std.specs.Prelude.{◌≡◌, length};
ghost use Rattle.script_rules.specs.Batch.{push_steps};
ghost use Rattle.script_rules.specs.Events.{on_timer, on_connected, on_disconnected};
ghost use Rattle.link_rules.specs.Link.{on_fragment};
ghost use Rattle.state_readers.specs.Readers.{timer, handle, result_answer};
ghost use Rattle.radio_rules.specs.Hearing.{adv, advertised, scan_responded};
ghost use Rattle.central.specs.State.{reading, outcome, quiet, acted, heard};

use central_answers::Answer;
use radio_match::AdvAction;
use script_rules::Batch;
use state::{Address, Sent};
use state_core::Core;
use state_readers::Given;
use state_refusals::Refusal;
use time::Micros;

pub mod fresh;

#[derive(Clone, Copy)]
pub struct State {
    pub core: Core,
    pub tables: [u64; 1152],
}

// A batch of steps waits behind the others, and the script goes on.
pub fn push_steps(
    state: State,
    store: &mut [u8],
    out: &mut [u8],
    at: Micros,
    batch: Batch,
    values: &[u8],
) -> Answer<State, Sent>
    ensures { outcome result store.new out.new ≡ push_steps (reading state) store.old out.old at batch values.now }
{
    let mut tables = state.tables;
    let a = script_batch::push_steps(state.core, &mut tables, store, out, at, batch, values);
    Answer {
        state: State {
            core: a.state,
            tables,
        },
        refusal: a.refusal,
        gives: a.gives,
    }
}

// The running step ends, if its deadline is now or before.
pub fn on_timer(state: State, store: &mut [u8], out: &mut [u8], at: Micros) -> Answer<State, Sent>
    ensures { outcome result store.new out.new ≡ on_timer (reading state) store.old out.old at }
{
    let mut tables = state.tables;
    let a = script_events::on_timer(state.core, &mut tables, store, out, at);
    Answer {
        state: State {
            core: a.state,
            tables,
        },
        refusal: a.refusal,
        gives: a.gives,
    }
}

// There is a new link, by this handle.
pub fn on_connected(
    state: State,
    store: &mut [u8],
    out: &mut [u8],
    handle: u16,
    at: Micros,
) -> Answer<State, Sent>
    ensures { outcome result store.new out.new ≡ on_connected (reading state) store.old out.old handle at }
{
    let mut tables = state.tables;
    let a = script_events::on_connected(state.core, &mut tables, store, out, handle, at);
    Answer {
        state: State {
            core: a.state,
            tables,
        },
        refusal: a.refusal,
        gives: a.gives,
    }
}

// There is no link any more.
pub fn on_disconnected(state: State, store: &mut [u8], at: Micros) -> Answer<State, ()>
    ensures { quiet result store.new ≡ on_disconnected (reading state) store.old at }
{
    let mut tables = state.tables;
    let a = script_events::on_disconnected(state.core, &mut tables, store, at);
    Answer {
        state: State {
            core: a.state,
            tables,
        },
        refusal: a.refusal,
        gives: a.gives,
    }
}

// A fragment of a frame comes in: it begins one, or goes on with what is held.
pub fn on_fragment(
    state: State,
    store: &mut [u8],
    out: &mut [u8],
    at: Micros,
    start: bool,
    fragment: &[u8],
) -> Answer<State, Sent>
    ensures { outcome result store.new out.new ≡ on_fragment (reading state) store.old out.old at start fragment.now }
{
    let mut tables = state.tables;
    let a = link_call::on_fragment(state.core, &mut tables, store, out, at, start, fragment);
    Answer {
        state: State {
            core: a.state,
            tables,
        },
        refusal: a.refusal,
        gives: a.gives,
    }
}

// An advertisement is heard.
pub fn on_advertising(
    state: State,
    store: &mut [u8],
    at: Micros,
    channel: u8,
    pdu: u8,
    address: Address,
    data: &[u8],
    to_central: bool,
) -> Answer<State, AdvAction>
    ensures { acted result store.new
        ≡ advertised (reading state) store.old (adv at channel pdu address «data».now to_central) }
{
    let mut tables = state.tables;
    let a = radio_calls::on_advertising(
        state.core,
        &mut tables,
        store,
        at,
        channel,
        pdu,
        address,
        data,
        to_central,
    );
    Answer {
        state: State {
            core: a.state,
            tables,
        },
        refusal: a.refusal,
        gives: a.gives,
    }
}

// A scan response is heard.
pub fn on_scan_response(
    state: State,
    store: &mut [u8],
    at: Micros,
    address: Address,
    data: &[u8],
) -> Answer<State, ()>
    ensures { heard result store.new ≡ scan_responded (reading state) store.old at address «data».now }
{
    let mut tables = state.tables;
    let a = radio_calls::on_scan_response(state.core, &mut tables, store, at, address, data);
    Answer {
        state: State {
            core: a.state,
            tables,
        },
        refusal: a.refusal,
        gives: a.gives,
    }
}

// When the running step is to be ended by a timer call, if ever.
pub fn timer_us(state: State, store: &[u8]) -> Result<Option<Micros>, Refusal>
    ensures { result ≡ timer (reading state) (length store.now) }
{
    state_readers::timer_us(state.core, &state.tables, store)
}

// The handle of the link, if there is one.
pub fn connected_handle(state: State, store: &[u8]) -> Result<Option<u16>, Refusal>
    ensures { result ≡ handle (reading state) (length store.now) }
{
    state_readers::connected_handle(state.core, &state.tables, store)
}

// The kept result of an index.
pub fn result(state: State, store: &[u8], index: u32) -> Result<Option<Given>, Refusal>
    ensures { result ≡ result_answer (reading state) (length store.now) index }
{
    state_readers::result(state.core, &state.tables, store, index)
}
