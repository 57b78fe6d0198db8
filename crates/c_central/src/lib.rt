// What C calls: everything is the caller's, in words and bytes. `&mut [u64; N]` is a pointer, `&[u8]` a pointer and a length.
// A call decodes the core, does its work on the lent tables, and gives its answer back in words.
#![tactic(auto)]

ghost use Rattle.std.specs.Prelude.{◌≡◌, length};
ghost use Rattle.adv_reports.specs.Key.{address_of};
ghost use Rattle.uuid_value.specs.Value.{num};
ghost use Rattle.state.specs.Fresh.{fresh_with};
ghost use Rattle.state_refusals.specs.Refusals.{told_number};
ghost use Rattle.script_rules.specs.Batch.{push_steps};
ghost use Rattle.script_rules.specs.Events.{on_timer, on_connected, on_disconnected};
ghost use Rattle.link_rules.specs.Link.{on_fragment};
ghost use Rattle.radio_rules.specs.Hearing.{adv, advertised, scan_responded};
ghost use Rattle.radio_sights.specs.View.{view};
ghost use Rattle.radio_views.specs.Presences.{presence_seen};
ghost use Rattle.radio_views.specs.Spots.{data_seen, response_seen, body_spot};
ghost use Rattle.state_core.specs.Reading.{central};
ghost use Rattle.state_readers.specs.Readers.{timer, handle, result_answer, passed_on};
ghost use Rattle.c_core.specs.Layout.{options_in, core_in};
ghost use Rattle.c_steps.specs.Steps.{batch_in};
ghost use Rattle.c_told.specs.Told.{answer_words, refusal_words, advertised_words};
ghost use Rattle.c_told.specs.Read.{by_number, timer_words, handle_words, given_words, passed_words, seen_words, spot_words, sighting_words};
ghost use Rattle.c_central.specs.After.{outcome, quiet, heard, Answered, Refused, Acted, Given, GivenFragment, Kept, KeptFragment, KeptQuietly};

use central_answers::Answer;
use radio_match::AdvAction;
use state::Sent;
use state_core::Core;
use state_refusals::Refusal;
use time::Micros;
use uuid_value::Uuid;

// ---- an answer in words

// The core's words stay, if the call was refused.
fn give_core(core: &mut [u64; 37], refusal: Option<Refusal>, next: Core)
    ensures { Given (told_number refusal) next core.old core.new }
{
    match refusal {
        None => c_core::encode(core, next),
        Some(_) => {}
    }
}

fn give(core: &mut [u64; 37], told: &mut [u64; 8], a: Answer<Core, Sent>)
    ensures { (told.new ≡ answer_words (told_number a.refusal) a.gives) × Given (told_number a.refusal) a.state core.old core.new }
{
    *told = c_told::answer_words(state_refusals::told_number(a.refusal), a.gives);
    give_core(core, a.refusal, a.state);
}

// A fragment that makes its frame too long is refused, and what is held of the frame is emptied.
fn give_fragment(core: &mut [u64; 37], told: &mut [u64; 8], a: Answer<Core, Sent>)
    ensures { (told.new ≡ answer_words (told_number a.refusal) a.gives) × GivenFragment (told_number a.refusal) a.state core.old core.new }
{
    let why = state_refusals::told_number(a.refusal);
    *told = c_told::answer_words(why, a.gives);
    if why == Refusal::LongFrame.number() {
        core[c_core::HELD] = 0;
        return;
    }
    give_core(core, a.refusal, a.state);
}

fn give_quietly(core: &mut [u64; 37], told: &mut [u64; 8], a: Answer<Core, ()>)
    ensures { (told.new ≡ refusal_words (told_number a.refusal)) × Given (told_number a.refusal) a.state core.old core.new }
{
    *told = c_told::refusal_words(state_refusals::told_number(a.refusal));
    give_core(core, a.refusal, a.state);
}

fn give_action(core: &mut [u64; 37], told: &mut [u64; 8], a: Answer<Core, AdvAction>)
    ensures { (told.new ≡ advertised_words (told_number a.refusal) a.gives) × Given (told_number a.refusal) a.state core.old core.new }
{
    *told = c_told::advertised_words(state_refusals::told_number(a.refusal), a.gives);
    give_core(core, a.refusal, a.state);
}

// ---- a fresh state

// The state before the first call, with the options that a word says: bit 0 is strict.
#[unsafe(no_mangle)]
pub extern "C" fn barleyrope_fresh_with_words(
    core: &mut [u64; 37],
    tables: &mut [u64; 1152],
    options: u64,
)
    ensures { central (core_in core.new) tables.new ≡ fresh_with (options_in options) }
{
    *core = [0u64; 37];
    core[c_core::OPTIONS] = options;
    *tables = [0u64; 1152];
}

// ---- the script and the link. What they tell: refusal, frames and bytes sent, request to the link and its numbers

// A batch of count steps, 12 words each, whose values stand in the lent bytes.
#[unsafe(no_mangle)]
pub extern "C" fn barleyrope_push_steps_words(
    core: &mut [u64; 37],
    tables: &mut [u64; 1152],
    store: &mut [u8],
    out: &mut [u8],
    at: u64,
    steps: &[u64],
    count: usize,
    values: &[u8],
    told: &mut [u64; 8],
)
    ensures out_after { outcome told.new core.new tables.new store.new out.new
        ≡ push_steps (central (core_in core.old) tables.old) store.old out.old (record { 0 = at }) (batch_in steps.now count) values.now }
    ensures refused { Kept told.new core.old tables.old store.old out.old core.new tables.new store.new out.new }
    ensures whole { Answered told.new }
{
    let c = c_core::decode(core);
    let batch = c_steps::batch_of(steps, count);
    let answer = script_batch::push_steps(c, tables, store, out, Micros(at), batch, values);
    give(core, told, answer);
}

// The clock reached a time.
#[unsafe(no_mangle)]
pub extern "C" fn barleyrope_on_timer_words(
    core: &mut [u64; 37],
    tables: &mut [u64; 1152],
    store: &mut [u8],
    out: &mut [u8],
    at: u64,
    told: &mut [u64; 8],
)
    ensures out_after { outcome told.new core.new tables.new store.new out.new
        ≡ on_timer (central (core_in core.old) tables.old) store.old out.old (record { 0 = at }) }
    ensures refused { Kept told.new core.old tables.old store.old out.old core.new tables.new store.new out.new }
    ensures whole { Answered told.new }
{
    let c = c_core::decode(core);
    let answer = script_events::on_timer(c, tables, store, out, Micros(at));
    give(core, told, answer);
}

// There is a new link, by this handle.
#[unsafe(no_mangle)]
pub extern "C" fn barleyrope_on_connected_words(
    core: &mut [u64; 37],
    tables: &mut [u64; 1152],
    store: &mut [u8],
    out: &mut [u8],
    handle: u16,
    at: u64,
    told: &mut [u64; 8],
)
    ensures out_after { outcome told.new core.new tables.new store.new out.new
        ≡ on_connected (central (core_in core.old) tables.old) store.old out.old handle (record { 0 = at }) }
    ensures refused { Kept told.new core.old tables.old store.old out.old core.new tables.new store.new out.new }
    ensures whole { Answered told.new }
{
    let c = c_core::decode(core);
    let answer = script_events::on_connected(c, tables, store, out, handle, Micros(at));
    give(core, told, answer);
}

// A fragment of a frame comes in: it begins one, or goes on with what is held.
#[unsafe(no_mangle)]
pub extern "C" fn barleyrope_on_fragment_words(
    core: &mut [u64; 37],
    tables: &mut [u64; 1152],
    store: &mut [u8],
    out: &mut [u8],
    at: u64,
    start: bool,
    fragment: &[u8],
    told: &mut [u64; 8],
)
    ensures out_after { outcome told.new core.new tables.new store.new out.new
        ≡ on_fragment (central (core_in core.old) tables.old) store.old out.old (record { 0 = at }) start fragment.now }
    ensures refused { KeptFragment told.new core.old tables.old store.old out.old core.new tables.new store.new out.new }
    ensures whole { Answered told.new }
{
    let c = c_core::decode(core);
    let answer = link_call::on_fragment(c, tables, store, out, Micros(at), start, fragment);
    give_fragment(core, told, answer);
}

// There is no link any more. It tells its refusal alone.
#[unsafe(no_mangle)]
pub extern "C" fn barleyrope_on_disconnected_words(
    core: &mut [u64; 37],
    tables: &mut [u64; 1152],
    store: &mut [u8],
    at: u64,
    told: &mut [u64; 8],
)
    ensures store_after { quiet told.new core.new tables.new store.new
        ≡ on_disconnected (central (core_in core.old) tables.old) store.old (record { 0 = at }) }
    ensures refused { KeptQuietly told.new core.old tables.old store.old core.new tables.new store.new }
    ensures whole { Refused told.new }
{
    let c = c_core::decode(core);
    let answer = script_events::on_disconnected(c, tables, store, Micros(at));
    give_quietly(core, told, answer);
}

// ---- the radio. An address is its number, and 2^48 more if it is random

// An advertisement. It tells: refusal, action, interval, latency, timeout.
#[unsafe(no_mangle)]
pub extern "C" fn barleyrope_on_advertising_words(
    core: &mut [u64; 37],
    tables: &mut [u64; 1152],
    store: &mut [u8],
    at: u64,
    channel: u8,
    pdu: u8,
    address: u64,
    data: &[u8],
    to_central: bool,
    told: &mut [u64; 8],
)
    ensures store_after { heard told.new core.new tables.new store.new
        ≡ advertised (central (core_in core.old) tables.old) store.old (adv (record { 0 = at }) channel pdu (address_of address) «data».now to_central) }
    ensures refused { KeptQuietly told.new core.old tables.old store.old core.new tables.new store.new }
    ensures whole { Acted told.new }
{
    let c = c_core::decode(core);
    let who = adv_reports::address_of(address);
    let answer = radio_calls::on_advertising(
        c,
        tables,
        store,
        Micros(at),
        channel,
        pdu,
        who,
        data,
        to_central,
    );
    give_action(core, told, answer);
}

// A scan response. It tells its refusal alone.
#[unsafe(no_mangle)]
pub extern "C" fn barleyrope_on_scan_response_words(
    core: &mut [u64; 37],
    tables: &mut [u64; 1152],
    store: &mut [u8],
    at: u64,
    address: u64,
    data: &[u8],
    told: &mut [u64; 8],
)
    ensures store_after { heard told.new core.new tables.new store.new
        ≡ scan_responded (central (core_in core.old) tables.old) store.old (record { 0 = at }) (address_of address) «data».now }
    ensures refused { KeptQuietly told.new core.old tables.old store.old core.new tables.new store.new }
    ensures whole { Refused told.new }
{
    let c = c_core::decode(core);
    let who = adv_reports::address_of(address);
    let answer = radio_calls::on_scan_response(c, tables, store, Micros(at), who, data);
    give_quietly(core, told, answer);
}

// ---- calls that only read. They tell: refusal, 1 if there is what was asked for, its numbers

// What a reader answers, with the number of its refusal.
fn by_number<A>(x: Result<A, Refusal>) -> Result<A, u8>
    ensures { result ≡ by_number x }
{
    x.map_err(Refusal::number)
}

// When the running step is to be ended by a timer call.
#[unsafe(no_mangle)]
pub extern "C" fn barleyrope_timer_us_words(
    core: &[u64; 37],
    tables: &[u64; 1152],
    store: &[u8],
    told: &mut [u64; 8],
)
    ensures { told.new ≡ timer_words (timer (central (core_in core.now) tables.now) (length store.now)) }
{
    let c = c_core::decode(core);
    *told = c_told::timer_words(by_number(state_readers::timer_us(c, tables, store)));
}

// The handle of the link.
#[unsafe(no_mangle)]
pub extern "C" fn barleyrope_connected_handle_words(
    core: &[u64; 37],
    tables: &[u64; 1152],
    store: &[u8],
    told: &mut [u64; 8],
)
    ensures { told.new ≡ handle_words (handle (central (core_in core.now) tables.now) (length store.now)) }
{
    let c = c_core::decode(core);
    *told = c_told::handle_words(by_number(state_readers::connected_handle(c, tables, store)));
}

// The kept result of an index: time, status, ATT error code, place and length of its value.
#[unsafe(no_mangle)]
pub extern "C" fn barleyrope_result_words(
    core: &[u64; 37],
    tables: &[u64; 1152],
    store: &[u8],
    index: u32,
    told: &mut [u64; 8],
)
    ensures { told.new ≡ given_words (result_answer (central (core_in core.now) tables.now) (length store.now) index) }
{
    let c = c_core::decode(core);
    *told = c_told::given_words(by_number(state_readers::result(c, tables, store, index)));
}

// The notification that the kept result of an index names: time, link, handle, whether it is an indication, place and length of its value.
#[unsafe(no_mangle)]
pub extern "C" fn barleyrope_passed_on_words(
    core: &[u64; 37],
    tables: &[u64; 1152],
    store: &[u8],
    index: u32,
    told: &mut [u64; 8],
)
    ensures { told.new ≡ passed_words (passed_on (central (core_in core.now) tables.now) (length store.now) index) }
{
    let c = c_core::decode(core);
    *told = c_told::passed_words(by_number(state_readers::passed_on(c, tables, store, index)));
}

// Report i: time, channel, PDU type, address, place and length of its data, whether it has a scan response, its place and length.
#[unsafe(no_mangle)]
pub extern "C" fn barleyrope_report_words(
    core: &[u64; 37],
    tables: &[u64; 1152],
    store: &[u8],
    i: usize,
    told: &mut [u64; 12],
)
    ensures { told.new ≡ seen_words (view (central (core_in core.now) tables.now) (length store.now) i) }
{
    let c = c_core::decode(core);
    *told = c_told::seen_words(by_number(radio_views::report(c, tables, store, i)));
}

// Where the advertising data of report i stands in the store.
#[unsafe(no_mangle)]
pub extern "C" fn barleyrope_report_data_words(
    core: &[u64; 37],
    tables: &[u64; 1152],
    store: &[u8],
    i: usize,
    told: &mut [u64; 8],
)
    ensures { told.new ≡ spot_words (data_seen (view (central (core_in core.now) tables.now) (length store.now) i)) }
{
    let c = c_core::decode(core);
    *told = c_told::spot_words(by_number(radio_views::report_data_at(c, tables, store, i)));
}

// Where the scan response of report i stands in the store.
#[unsafe(no_mangle)]
pub extern "C" fn barleyrope_report_response_words(
    core: &[u64; 37],
    tables: &[u64; 1152],
    store: &[u8],
    i: usize,
    told: &mut [u64; 8],
)
    ensures { told.new ≡ spot_words (response_seen (view (central (core_in core.now) tables.now) (length store.now) i)) }
{
    let c = c_core::decode(core);
    *told = c_told::spot_words(by_number(radio_views::report_response_at(c, tables, store, i)));
}

// Where the body of the structure of report i stands that lists the service, of its data or else of its scan response.
#[unsafe(no_mangle)]
pub extern "C" fn barleyrope_report_body_words(
    core: &[u64; 37],
    tables: &[u64; 1152],
    store: &[u8],
    i: usize,
    low: u64,
    high: u64,
    told: &mut [u64; 8],
)
    ensures { told.new ≡ spot_words (body_spot (num (record { low = low; high = high })) store.now
        (view (central (core_in core.now) tables.now) (length store.now) i)) }
{
    let c = c_core::decode(core);
    *told = c_told::spot_words(by_number(radio_views::report_body_at(
        c,
        tables,
        store,
        i,
        Uuid { low, high },
    )));
}

// What report i tells of a service, by its data and its scan response: 0 absent, 1 listed, 2 unknown.
#[unsafe(no_mangle)]
pub extern "C" fn barleyrope_report_presence_words(
    core: &[u64; 37],
    tables: &[u64; 1152],
    store: &[u8],
    i: usize,
    low: u64,
    high: u64,
    told: &mut [u64; 8],
)
    ensures { told.new ≡ sighting_words (presence_seen (num (record { low = low; high = high })) store.now
        (view (central (core_in core.now) tables.now) (length store.now) i)) }
{
    let c = c_core::decode(core);
    let service = Uuid { high, low };
    let answer = radio_views::report_presence(c, tables, store, i, service);
    *told = c_told::sighting_words(by_number(answer));
}
