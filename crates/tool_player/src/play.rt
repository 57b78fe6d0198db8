// One record: its call is made on the port and answered.
use central::State;
use central_answers::Answer;
use state::{Options, Sent};
use state_core::Core;
use state_refusals::Refusal;
use time::Micros;
use tool_lines::line;
use tool_traces::record::Tag;
use tool_traces::{record, steps};

// What the Rust does.
pub const OLD_MODE: Options = Options { strict: false };

const HANDLE_AT: usize = 8;

// Places in the bodies of an advertisement and of a scan response.
const CHANNEL_AT: usize = 8;

const PDU_AT: usize = 9;

const ADDRESS_AT: usize = 10;

const DATA_AT: usize = 18;

const RESPONSE_ADDRESS_AT: usize = 8;

const RESPONSE_DATA_AT: usize = 15;

const FRAGMENT_AT: usize = 9;

// The bytes from n on.
fn after(s: &[u8], n: usize) -> &[u8] {
    s.get(n..).unwrap_or(&[])
}

fn is_set(body: &[u8], at: usize) -> bool {
    record::byte(body, at) == 1
}

fn at_of(body: &[u8]) -> Micros {
    Micros(bytes_numbers::le64(body, 0))
}

// One bit an option: the lowest is strict.
fn options_in(body: &[u8]) -> Options {
    let word = bytes_numbers::le64(body, 0);
    Options {
        strict: word % 2 == 1,
    }
}

// Each function makes a call and writes its line; whether it could be written.
// Kept: state, store, out and to as parameters, since no proof is made yet where two loans of fields behind one &mut self are held.

// ---- the calls that only read

fn timer_us(state: &State, store: &[u8], to: &mut [u8]) -> bool {
    let timer = state_readers::timer_us(state.core, &state.tables, store);
    line::write(to, b"timer_us", |line| tool_rows::timer(line, timer))
}

fn connected_handle(state: &State, store: &[u8], to: &mut [u8]) -> bool {
    let handle = state_readers::connected_handle(state.core, &state.tables, store);
    line::write(
        to,
        b"connected_handle",
        |line| tool_rows::handle(line, handle),
    )
}

fn result(state: &State, store: &[u8], to: &mut [u8], body: &[u8]) -> bool {
    let index = bytes_numbers::le32(body, 0);
    let given = state_readers::result(state.core, &state.tables, store, index);
    line::write(
        to,
        b"result",
        |line| tool_rows::given(line, index, given, store),
    )
}

fn passed_on(state: &State, store: &[u8], to: &mut [u8], body: &[u8]) -> bool {
    let index = bytes_numbers::le32(body, 0);
    let passed = state_readers::passed_on(state.core, &state.tables, store, index);
    line::write(
        to,
        b"passed_on",
        |line| tool_rows::passed(line, passed, store),
    )
}

fn dump(state: &State, store: &[u8], to: &mut [u8]) -> bool {
    line::write(
        to,
        b"dump",
        |line| tool_dumps::tell_state(line, state.core, &state.tables, store),
    )
}

fn links(state: &State, to: &mut [u8]) -> bool {
    line::write(
        to,
        b"links",
        |line| tool_dumps::tell_links(line, state.core, &state.tables),
    )
}

fn mode(core: Core, to: &mut [u8]) -> bool {
    line::write(
        to,
        b"mode",
        |line| tool_rows::mode(line, core.options, core.bearer),
    )
}

// ---- the calls that change the state

// The store and the output keep their bytes at a fresh state: no answer may depend on them.
fn begin(state: &mut State, to: &mut [u8], name: &[u8], options: Options) -> bool {
    let fresh = central::fresh::fresh_with(options);
    *state = fresh;
    line::write(to, name, |_line| ())
}

// The line of a refusal, or of none.
fn refusal(to: &mut [u8], name: &[u8], refusal: Option<Refusal>) -> bool {
    line::write(to, name, |line| tool_rows::refusal(line, refusal))
}

// What a call that may send has left and given.
fn sending(
    state: &mut State,
    out: &[u8],
    to: &mut [u8],
    name: &[u8],
    a: Answer<Core, Sent>,
) -> bool {
    state.core = a.state;
    if a.refusal.is_some() {
        return refusal(to, name, a.refusal);
    }
    line::write(to, name, |line| tool_rows::sent(line, a.gives, out))
}

// What a call that sends nothing has.
fn quiet(state: &mut State, to: &mut [u8], name: &[u8], a: Answer<Core, ()>) -> bool {
    state.core = a.state;
    refusal(to, name, a.refusal)
}

fn push(state: &mut State, store: &mut [u8], out: &mut [u8], to: &mut [u8], body: &[u8]) -> bool {
    let values = after(body, steps::values_at(body));
    let steps = steps::batch_of(body);
    let at = at_of(body);
    let a = script_batch::push_steps(state.core, &mut state.tables, store, out, at, steps, values);
    sending(state, out, to, b"batch", a)
}

fn ring(state: &mut State, store: &mut [u8], out: &mut [u8], to: &mut [u8], body: &[u8]) -> bool {
    let at = at_of(body);
    let a = script_events::on_timer(state.core, &mut state.tables, store, out, at);
    sending(state, out, to, b"timer", a)
}

fn connect(
    state: &mut State,
    store: &mut [u8],
    out: &mut [u8],
    to: &mut [u8],
    body: &[u8],
) -> bool {
    let handle = bytes_numbers::le16(body, HANDLE_AT);
    let at = at_of(body);
    let a = script_events::on_connected(state.core, &mut state.tables, store, out, handle, at);
    sending(state, out, to, b"connected", a)
}

fn disconnect(state: &mut State, store: &mut [u8], to: &mut [u8], body: &[u8]) -> bool {
    let at = at_of(body);
    let a = script_events::on_disconnected(state.core, &mut state.tables, store, at);
    quiet(state, to, b"disconnected", a)
}

fn gather(state: &mut State, store: &mut [u8], out: &mut [u8], to: &mut [u8], body: &[u8]) -> bool {
    let start = is_set(body, record::START_AT);
    let fragment = after(body, FRAGMENT_AT);
    let at = at_of(body);
    let a = link_call::on_fragment(
        state.core,
        &mut state.tables,
        store,
        out,
        at,
        start,
        fragment,
    );
    sending(state, out, to, b"fragment", a)
}

fn hear(state: &mut State, store: &mut [u8], to: &mut [u8], body: &[u8]) -> bool {
    let random = is_set(body, record::RANDOM_AT);
    let address = steps::address(body, ADDRESS_AT, random);
    let a = radio_calls::on_advertising(
        state.core,
        &mut state.tables,
        store,
        at_of(body),
        record::byte(body, CHANNEL_AT),
        record::byte(body, PDU_AT),
        address,
        after(body, DATA_AT),
        is_set(body, record::TO_CENTRAL_AT),
    );
    state.core = a.state;
    line::write(
        to,
        b"advertising",
        |line| tool_rows::advertised(line, a.refusal, a.gives),
    )
}

fn respond(state: &mut State, store: &mut [u8], to: &mut [u8], body: &[u8]) -> bool {
    let random = is_set(body, record::RESPONSE_RANDOM_AT);
    let address = steps::address(body, RESPONSE_ADDRESS_AT, random);
    let heard = after(body, RESPONSE_DATA_AT);
    let at = at_of(body);
    let a = radio_calls::on_scan_response(state.core, &mut state.tables, store, at, address, heard);
    quiet(state, to, b"scan_response", a)
}

// A record with this tag and body.
pub fn play(
    tag: Tag,
    body: &[u8],
    state: &mut State,
    store: &mut [u8],
    out: &mut [u8],
    to: &mut [u8],
) -> bool {
    match tag {
        Tag::Fresh => begin(state, to, b"fresh", OLD_MODE),
        Tag::FreshWith => begin(state, to, b"fresh_with", options_in(body)),
        Tag::Batch => push(state, store, out, to, body),
        Tag::Timer => ring(state, store, out, to, body),
        Tag::Connected => connect(state, store, out, to, body),
        Tag::Disconnected => disconnect(state, store, to, body),
        Tag::Advertising => hear(state, store, to, body),
        Tag::ScanResponse => respond(state, store, to, body),
        Tag::Fragment => gather(state, store, out, to, body),
        Tag::TimerUs => timer_us(state, store, to),
        Tag::ConnectedHandle => connected_handle(state, store, to),
        Tag::Result => result(state, store, to, body),
        Tag::PassedOn => passed_on(state, store, to, body),
        Tag::Dump => dump(state, store, to),
        Tag::Links => links(state, to),
        Tag::Mode => mode(state.core, to),
    }
}
