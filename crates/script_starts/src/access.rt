// An MTU is exchanged; a characteristic is subscribed to, written or read.
ghost use Rattle.std.specs.Prelude.{◌≡◌, List, ℕ, ◌+◌, ◌≤◌, max, length, take, Some};
ghost use Rattle.state_places.specs.Sizes.{value_size, running_at};
ghost use Rattle.l2cap.specs.Frame.{att_pdu};
ghost use Rattle.att_pdu.specs.Numbers.{op_write_req};
ghost use Rattle.state_rules.specs.Facts.{Fit};
ghost use Rattle.state_rules.specs.Steps.{default_mtu};
ghost use Rattle.att_pdu.specs.Pdu.{exchange_mtu_req, write_req};
ghost use Rattle.gatt_characteristics.specs.Characteristic.{characteristic_with};
ghost use Rattle.script_rules.specs.Ready.{Ready};
ghost use Rattle.script_rules.specs.Send.{Room, request};
ghost use Rattle.script_rules.specs.Start.{configuration, subscribe_at, subscribe, commanded, write, read};
ghost use Rattle.words.specs.Tables.{characteristics_in};
ghost use Rattle.state_core.specs.Reading.{central, world};

use gatt_characteristics::Characteristic;
use state::StepStatus;
use state_core::Turn;
use time::Micros;
use uuid_value::Uuid;

// The client characteristic configuration's values.
const NOTIFY: u8 = 0x01;

const INDICATE: u8 = 0x02;

fn at_least(mtu: u16) -> u16
    ensures { result ≡ max mtu default_mtu }
{
    if mtu < att_pdu::DEFAULT_MTU {
        att_pdu::DEFAULT_MTU
    } else {
        mtu
    }
}

pub fn start_mtu(t: Turn, out: &mut [u8], at: Micros, mtu: u16) -> Turn
    requires { Room t.sent (length out.old) 7 }
    ensures { (w s : List ℕ) → world result w s out.new ≡ request (world t w s out.old) at (exchange_mtu_req (max mtu default_mtu)) }
{
    let pdu = att_pdu::exchange_mtu_req(at_least(mtu));
    script_turns::request(t, out, at, &pdu)
}

// The write of a client characteristic configuration.
fn configure(handle: u16, indicate: bool) -> [u8; 5]
    ensures { result ≡ write_req handle (configuration indicate) }
{
    if indicate {
        [
            att_pdu::op::WRITE_REQ,
            bytes_halves::lo(handle),
            bytes_halves::hi(handle),
            INDICATE,
            0,
        ]
    } else {
        [
            att_pdu::op::WRITE_REQ,
            bytes_halves::lo(handle),
            bytes_halves::hi(handle),
            NOTIFY,
            0,
        ]
    }
}

// By where the descriptor stands.
fn subscribe_at(
    t: Turn,
    tables: &mut [u64; 1152],
    store: &mut [u8],
    out: &mut [u8],
    at: Micros,
    indicate: bool,
    at_cccd: Option<u16>,
) -> Turn
    requires { Ready 64 (world t tables.old store.old out.old) }
    ensures { world result tables.new store.new out.new
        ≡ subscribe_at (world t tables.old store.old out.old) at indicate at_cccd }
{
    match at_cccd {
        None => script_turns::end_turn(t, tables, store, at, StepStatus::NotFound),
        Some(handle) => {
            let pdu = configure(handle, indicate);
            script_turns::request(t, out, at, &pdu)
        }
    }
}

pub fn start_subscribe(
    t: Turn,
    tables: &mut [u64; 1152],
    store: &mut [u8],
    out: &mut [u8],
    at: Micros,
    uuid: Uuid,
    indicate: bool,
) -> Turn
    requires { Ready 64 (world t tables.old store.old out.old) × Fit (central t.core tables.old) }
    ensures { world result tables.new store.new out.new
        ≡ subscribe (world t tables.old store.old out.old)
        at indicate (characteristic_with uuid (take t.core.counts.characteristics (characteristics_in tables.old))) }
{
    let core = t.core;
    let counts = core.counts;
    match words_characteristic::find_characteristic(tables, counts.characteristics, uuid) {
        None => script_turns::end_turn(t, tables, store, at, StepStatus::NotFound),
        Some(x) => {
            let at_cccd = x.cccd;
            subscribe_at(t, tables, store, out, at, indicate, at_cccd)
        }
    }
}

// The running step's value goes out as a command, and that is all.
fn write_command(
    t: Turn,
    tables: &mut [u64; 1152],
    store: &mut [u8],
    out: &mut [u8],
    at: Micros,
    handle: u16,
    n: usize,
) -> Turn
    requires { Ready 64 (world t tables.old store.old out.old) × (n ≤ value_size) }
    ensures { world result tables.new store.new out.new ≡ commanded (world t tables.old store.old out.old) at handle n }
{
    let core = t.core;
    let sent = t.sent;
    let told = script_sends::send_value(
        sent,
        out,
        att_pdu::op::WRITE_CMD,
        handle,
        store,
        state_places::RUNNING_AT,
        n,
    );
    let next = script_turns::end(core, tables, store, at, StepStatus::Ok);
    Turn {
        core: next,
        sent: told,
    }
}

// The running step's value goes out as a request.
fn write_request(t: Turn, store: &[u8], out: &mut [u8], at: Micros, handle: u16, n: usize) -> Turn
    requires { Room t.sent (length out.old) (3 + n) × (running_at + n ≤ length store.now) }
    ensures { (w : List ℕ) → world result w store.now out.new
        ≡ request (world t w store.now out.old) at (att_pdu op_write_req handle store.now running_at n) }
{
    let core = t.core;
    let sent = t.sent;
    let told = script_sends::send_value(
        sent,
        out,
        att_pdu::op::WRITE_REQ,
        handle,
        store,
        state_places::RUNNING_AT,
        n,
    );
    let next = script_turns::asked(core, at, att_pdu::op::WRITE_REQ);
    Turn {
        core: next,
        sent: told,
    }
}

// A value for a handle goes out, if it is within the MTU.
fn write_to(
    t: Turn,
    tables: &mut [u64; 1152],
    store: &mut [u8],
    out: &mut [u8],
    at: Micros,
    with_response: bool,
    x: Characteristic,
) -> Turn
    requires { Ready 64 (world t tables.old store.old out.old) × (t.core.running.len ≤ value_size) }
    ensures { world result tables.new store.new out.new
        ≡ write (world t tables.old store.old out.old) at with_response (Some x) }
{
    let core = t.core;
    let running = core.running;
    let bearer = core.bearer;
    let link = bearer.link;
    let n = running.len as usize;
    let mtu = link.mtu as usize;
    let size = n + l2cap::ATT_HEAD;
    if mtu < size {
        return script_turns::end_turn(t, tables, store, at, StepStatus::TooLong);
    }
    if with_response {
        return write_request(t, store, out, at, x.value_handle, n);
    }
    write_command(t, tables, store, out, at, x.value_handle, n)
}

pub fn start_write(
    t: Turn,
    tables: &mut [u64; 1152],
    store: &mut [u8],
    out: &mut [u8],
    at: Micros,
    uuid: Uuid,
    with_response: bool,
) -> Turn
    requires { Ready 64 (world t tables.old store.old out.old) × Fit (central t.core tables.old) × (t.core.running.len ≤ value_size) }
    ensures { world result tables.new store.new out.new
        ≡ write (world t tables.old store.old out.old)
        at with_response (characteristic_with uuid (take t.core.counts.characteristics (characteristics_in tables.old))) }
{
    let core = t.core;
    let counts = core.counts;
    match words_characteristic::find_characteristic(tables, counts.characteristics, uuid) {
        None => script_turns::end_turn(t, tables, store, at, StepStatus::NotFound),
        Some(x) => write_to(t, tables, store, out, at, with_response, x),
    }
}

pub fn start_read(
    t: Turn,
    tables: &mut [u64; 1152],
    store: &mut [u8],
    out: &mut [u8],
    at: Micros,
    uuid: Uuid,
) -> Turn
    requires { Ready 64 (world t tables.old store.old out.old) × Fit (central t.core tables.old) }
    ensures { world result tables.new store.new out.new
        ≡ read (world t tables.old store.old out.old)
        at (characteristic_with uuid (take t.core.counts.characteristics (characteristics_in tables.old))) }
{
    let core = t.core;
    let counts = core.counts;
    match words_characteristic::find_characteristic(tables, counts.characteristics, uuid) {
        None => script_turns::end_turn(t, tables, store, at, StepStatus::NotFound),
        Some(x) => {
            let pdu = att_pdu::read_req(x.value_handle);
            script_turns::request(t, out, at, &pdu)
        }
    }
}
