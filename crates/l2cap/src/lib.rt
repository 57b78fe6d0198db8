// L2CAP basic frames, written into a lent output.
#![tactic(auto)]

ghost use Rattle.std.specs.Prelude.{◌≡◌, ◌&&◌, ◌∷◌, ◌++◌, ◌+◌, ◌≤◌, length, take, drop, leb};
ghost use Rattle.bytes_base.specs.Bytes.{le_bytes};
ghost use Rattle.bytes_base.specs.Splice.{splice};
ghost use Rattle.l2cap.specs.Numbers.{cid_att};
ghost use Rattle.l2cap.specs.Frame.{written, framed, att_framed};

pub mod cid;

// Bytes of a frame before its payload.
pub const HEADER: usize = 4;

// The longest payload that a frame's length field can tell.
const LONGEST: usize = 65_535;

// Bytes of an ATT PDU before its value: an opcode and a handle.
pub const ATT_HEAD: usize = 3;

fn header(n: u16, channel: u16) -> [u8; 4]
    ensures { result ≡ le_bytes 2 n ++ le_bytes 2 channel }
{
    let [n_lo, n_hi] = n.to_le_bytes();
    let [channel_lo, channel_hi] = channel.to_le_bytes();
    [n_lo, n_hi, channel_lo, channel_hi]
}

// Whether an output of len bytes can take the frame of n bytes of payload, from at on.
fn has_room(len: usize, at: usize, n: usize) -> bool
    ensures { result ≡ (leb n 65535 && leb (at + (4 + n)) len) }
{
    n <= LONGEST && HEADER + n <= len && at <= len - (HEADER + n)
}

// Writes what stands before a value and n bytes of the value from from on into out, from at on, and answers how many bytes these are.
fn put(out: &mut [u8], at: usize, head: &[u8], value: &[u8], from: usize, n: usize) -> usize
    requires n_in_bounds { at + (length head.now + n) ≤ length out.old }
    requires n_in_bounds_2 { from + n ≤ length value.now }
    ensures out_after { out.new ≡ splice out.old at (head.now ++ take n (drop from value.now)) 0 (length head.now + n) }
    ensures value { result ≡ length head.now + n }
{
    let k = head.len();
    bytes_copies::copy_in(out, at, head, 0, k);
    let body = at + k;
    bytes_copies::copy_in(out, body, value, from, n);
    k + n
}

// Writes the frame of a payload into out, from at on, and answers its length: 0, and nothing is written, where it has no room.
pub fn l2cap(out: &mut [u8], at: usize, channel: u16, payload: &[u8]) -> usize
    ensures { written out.new result ≡ framed out.old at channel payload.now }
{
    let n = payload.len();
    if has_room(out.len(), at, n) {
        let len = n as u16;
        let head = header(len, channel);
        return put(out, at, &head, payload, 0, n);
    }
    0
}

// The header of a frame of n bytes on the ATT channel, and the head of the PDU in it.
fn att_head(n: u16, opcode: u8, handle: u16) -> [u8; 7]
    ensures { result ≡ (le_bytes 2 n ++ le_bytes 2 cid_att) ++ (opcode ∷ le_bytes 2 handle) }
{
    let [n_lo, n_hi, channel_lo, channel_hi] = header(n, cid::ATT);
    let [lo, hi] = handle.to_le_bytes();
    [n_lo, n_hi, channel_lo, channel_hi, opcode, lo, hi]
}

// Whether n bytes from from on are there out of have, and an output of len bytes can take the frame of a PDU with that value, from at on.
fn has_att_room(len: usize, at: usize, have: usize, from: usize, n: usize) -> bool
    ensures { result ≡ (leb (from + n) have && (leb (3 + n) 65535 && leb (at + (4 + (3 + n))) len)) }
{
    // A longer value is told before the sum, so that this fits.
    n <= have && from <= have - n && n <= LONGEST && has_room(len, at, ATT_HEAD + n)
}

// Writes the frame of an ATT PDU into out, from at on: an opcode, a handle, and n bytes of value from from on.
// Answers its length: 0, and nothing is written, where it has no room or the value is not there.
pub fn att_frame(
    out: &mut [u8],
    at: usize,
    opcode: u8,
    handle: u16,
    value: &[u8],
    from: usize,
    n: usize,
) -> usize
    ensures { written out.new result ≡ att_framed out.old at opcode handle value.now from n }
{
    if has_att_room(out.len(), at, value.len(), from, n) {
        let pdu = ATT_HEAD + n;
        let len = pdu as u16;
        let head = att_head(len, opcode, handle);
        return put(out, at, &head, value, from, n);
    }
    0
}
