// on_fragment: a fragment of a frame comes in; a whole frame goes by its channel, and the script goes on.
#![tactic(auto)]

ghost use Rattle.std.specs.Prelude.{◌≡◌, true, false, List, ℕ, ◌+◌, ◌≤◌, ◌<◌, length};
ghost use Rattle.state_places.specs.Sizes.{frame_size};
ghost use Rattle.state_refusals.specs.Refusals.{told_number};
ghost use Rattle.state_rules.specs.Fit.{most_notified};
ghost use Rattle.script_rules.specs.World.{on_told};
ghost use Rattle.script_rules.specs.Send.{Room};
ghost use Rattle.link_rules.specs.Payload.{Reads};
ghost use Rattle.link_rules.specs.Fragment.{dropped, held_before, whole};
ghost use Rattle.link_rules.specs.Replies.{refuse};
ghost use Rattle.link_rules.specs.Att.{on_att};
ghost use Rattle.link_rules.specs.Channel.{on_channel};
ghost use Rattle.link_rules.specs.Link.{Hears, frame_read, gather, hear, on_fragment};
ghost use Rattle.state_core.specs.Reading.{central, held, world};
ghost use Rattle.central_answers.specs.Answers.{outcome};
ghost use Rattle.link_call.specs.Leaves.{FragmentLeaves};

use att_pdu::{err, op};
use central_answers::{Answer, UNSENT};
use l2cap::cid;
use state::Sent;
use state_core::{Core, Turn};
use time::Micros;

// The last opcode before the notification's.
const LAST_REQUEST: u8 = op::HANDLE_VALUE_NTF - 1;

// The one request beyond.
const READ_MULTIPLE_VARIABLE_REQ: u8 = 0x20;

// A request of the peer is not served.
fn refuse(t: Turn, out: &mut [u8], opcode: u8, handle: u16, code: u8) -> Turn
    requires { Room t.sent (length out.old) 5 }
    ensures { (w s : List ℕ) → world result w s out.new ≡ on_told (world t w s out.old) (refuse (world t w s out.old).told opcode handle code) }
{
    let core = t.core;
    let sent = t.sent;
    let told = link_signals::refuse(sent, out, opcode, handle, code);
    Turn { core, sent: told }
}

// A payload of n bytes of the attribute channel: its opcode decides, by value and by range.
fn on_att(
    t: Turn,
    tables: &mut [u64; 1152],
    store: &mut [u8],
    out: &mut [u8],
    at: Micros,
    n: usize,
) -> Turn
    requires { Reads n (world t tables.old store.old out.old) × (t.core.counters.notified < most_notified) }
    ensures { world result tables.new store.new out.new ≡ on_att (world t tables.old store.old out.old) at n }
{
    if n == 0 {
        return t;
    }
    let opcode = link_payload::byte(store, n, 0);
    let handle = link_payload::number(store, n, 1);
    match opcode {
        op::HANDLE_VALUE_NTF | op::HANDLE_VALUE_IND => {
            if l2cap::ATT_HEAD <= n {
                let indication = opcode == op::HANDLE_VALUE_IND;
                link_replies::notice(t, tables, store, out, at, n, indication)
            } else {
                link_responses::on_response(t, tables, store, out, at, n)
            }
        }
        op::EXCHANGE_MTU_REQ => link_replies::exchange(t, out, handle),
        op::FIND_INFORMATION_REQ
        | op::FIND_BY_TYPE_VALUE_REQ
        | op::READ_BY_TYPE_REQ
        | op::READ_BY_GROUP_TYPE_REQ => refuse(t, out, opcode, handle, err::ATTRIBUTE_NOT_FOUND),
        op::READ_REQ | op::READ_BLOB_REQ | op::READ_MULTIPLE_REQ | op::WRITE_REQ => {
            refuse(t, out, opcode, handle, err::INVALID_HANDLE)
        }
        op::WRITE_CMD | op::HANDLE_VALUE_CFM => t,
        // Requests are the even opcodes below the notification's.
        0..=LAST_REQUEST => {
            if opcode % 2 == 0 {
                refuse(t, out, opcode, 0, err::REQUEST_NOT_SUPPORTED)
            } else {
                link_responses::on_response(t, tables, store, out, at, n)
            }
        }
        READ_MULTIPLE_VARIABLE_REQ => refuse(t, out, opcode, 0, err::REQUEST_NOT_SUPPORTED),
        _ => link_responses::on_response(t, tables, store, out, at, n),
    }
}

// A payload of n bytes goes by its channel; other channels get nothing.
fn on_channel(
    t: Turn,
    tables: &mut [u64; 1152],
    store: &mut [u8],
    out: &mut [u8],
    at: Micros,
    channel: u16,
    n: usize,
) -> Turn
    requires { Reads n (world t tables.old store.old out.old) × (t.core.counters.notified < most_notified) }
    ensures { world result tables.new store.new out.new ≡ on_channel (world t tables.old store.old out.old) at channel n }
{
    let core = t.core;
    let sent = t.sent;
    match channel {
        cid::ATT => on_att(t, tables, store, out, at, n),
        cid::SIGNALING => {
            let told = link_signals::on_signaling(sent, out, store, n);
            Turn { core, sent: told }
        }
        cid::SMP => {
            let told = link_signals::on_smp(sent, out, store, n);
            Turn { core, sent: told }
        }
        _ => t,
    }
}

// What is held is a whole frame: it is emptied, the frame is read, and the script goes on.
fn frame_read(
    t: Turn,
    tables: &mut [u64; 1152],
    store: &mut [u8],
    out: &mut [u8],
    at: Micros,
) -> Turn
    requires { Hears (world t tables.old store.old out.old) at × (t.core.bearer.present ≡ true) × (whole (held t.core tables.old store.old) ≡ true) }
    ensures { world result tables.new store.new out.new ≡ frame_read (world t tables.old store.old out.old) at }
{
    let n = link_fragments::frame_length(store);
    let channel = link_fragments::frame_channel(store);
    let holding = t.core;
    let sent = t.sent;
    let core = link_frames::with_held(holding, 0);
    let emptied = Turn { core, sent };
    let u = on_channel(emptied, tables, store, out, at, channel, n);
    script_run::advance(u, tables, store, out, at)
}

// A fragment that is not dropped stands behind what is held; a whole frame is read.
fn gather(
    t: Turn,
    tables: &mut [u64; 1152],
    store: &mut [u8],
    out: &mut [u8],
    at: Micros,
    start: bool,
    fragment: &[u8],
) -> Turn
    requires { Hears (world t tables.old store.old out.old) at × (dropped t.core.bearer start ≡ false) × (held_before t.core.bearer start + length fragment.now ≤ frame_size) }
    ensures { world result tables.new store.new out.new ≡ gather (world t tables.old store.old out.old) at start fragment.now }
{
    let was = t.core;
    let sent = t.sent;
    let core = link_frames::gather(was, store, start, fragment);
    let more = Turn { core, sent };
    if link_frames::is_whole(core, store) {
        return frame_read(more, tables, store, out, at);
    }
    more
}

// A fragment that passed the gate.
fn hear(
    t: Turn,
    tables: &mut [u64; 1152],
    store: &mut [u8],
    out: &mut [u8],
    at: Micros,
    start: bool,
    fragment: &[u8],
) -> Turn
    requires { Hears (world t tables.old store.old out.old) at × (dropped t.core.bearer start ≡ false → held_before t.core.bearer start + length fragment.now ≤ frame_size) }
    ensures { world result tables.new store.new out.new ≡ hear (world t tables.old store.old out.old) at start fragment.now }
{
    let core = t.core;
    let bearer = core.bearer;
    if link_fragments::is_dropped(bearer, start) {
        return t;
    }
    gather(t, tables, store, out, at, start, fragment)
}

// A fragment of a frame comes in: it begins one, or goes on with what is held.
pub fn on_fragment(
    core: Core,
    tables: &mut [u64; 1152],
    store: &mut [u8],
    out: &mut [u8],
    at: Micros,
    start: bool,
    fragment: &[u8],
) -> Answer<Core, Sent>
    ensures out_after { outcome result tables.new store.new out.new ≡ on_fragment (central core tables.old) store.old out.old at start fragment.now }
    ensures refused { FragmentLeaves (told_number result.refusal) core result.state tables.old tables.new store.old store.new
        × ((told_number result.refusal ≡ 0 → ⊥) → out.new ≡ out.old) }
{
    let n = fragment.len();
    if let Err(why) = link_frames::gate_fragment(
        core,
        tables,
        store.len(),
        out.len(),
        at,
        start,
        n,
    ) {
        let left = link_frames::refusing(core, why);
        return central_answers::refuse(left, why, UNSENT);
    }
    let begun = central_answers::begin(core);
    let t = hear(begun, tables, store, out, at, start, fragment);
    central_answers::done(t.core, t.sent)
}
