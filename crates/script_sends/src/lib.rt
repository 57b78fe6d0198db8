// Frames go out, one behind another.
#![tactic(auto)]

ghost use Rattle.std.specs.Prelude.{◌≡◌, ◌+◌, ◌^◌, ◌≤◌, ◌<◌, length};
ghost use Rattle.script_rules.specs.World.{told};
ghost use Rattle.script_rules.specs.Send.{Room, send, request};
ghost use Rattle.l2cap.specs.Numbers.{cid_att};
ghost use Rattle.l2cap.specs.Frame.{att_pdu};

use state::Sent;

// One frame more, of len bytes.
fn with_frame(sent: Sent, len: usize) -> Sent
    requires { (sent.frames + 1 < 2 ^ 64) × (sent.bytes + len < 2 ^ 64) }
    ensures { result ≡ record { frames = sent.frames + 1; bytes = sent.bytes + len; request = sent.request } }
{
    Sent {
        frames: sent.frames + 1,
        bytes: sent.bytes + len,
        ..sent
    }
}

// A payload goes out on a channel, behind the frames before it.
pub fn send(sent: Sent, out: &mut [u8], channel: u16, payload: &[u8]) -> Sent
    requires { Room sent (length out.old) (length payload.now) }
    ensures { told result out.new ≡ send (told sent out.old) channel payload.now }
{
    let len = l2cap::l2cap(out, sent.bytes, channel, payload);
    with_frame(sent, len)
}

// An ATT PDU of an opcode, a handle and n bytes of the store goes out.
pub fn send_value(
    sent: Sent,
    out: &mut [u8],
    opcode: u8,
    handle: u16,
    store: &[u8],
    from: usize,
    n: usize,
) -> Sent
    requires { Room sent (length out.old) (3 + n) × (from + n ≤ length store.now) }
    ensures { told result out.new ≡ send (told sent out.old) cid_att (att_pdu opcode handle store.now from n) }
{
    let len = l2cap::att_frame(out, sent.bytes, opcode, handle, store, from, n);
    with_frame(sent, len)
}
