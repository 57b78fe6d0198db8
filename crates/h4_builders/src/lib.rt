// H4 packets written to the front of a lent output: ACL data, and the events of a controller.
// A refused builder writes nothing; the bytes behind a packet stay as they were.
#![tactic(auto)]

ghost use Rattle.std.specs.Prelude.{◌≡◌, ◌+◌, ◌*◌, ◌≤◌, ◌++◌, length, take, drop, leb, OnOk};
ghost use Rattle.h4_builders.specs.Packet.{acl_word, event_header};
ghost use Rattle.h4_builders.specs.Events.{code_command_complete, command_complete, code_command_status, command_status};
ghost use Rattle.h4_builders.specs.Events.{number_bytes, code_completed_packets, completed_packets, code_le_meta, le_meta};
ghost use Rattle.h4_builders.specs.Build.{refusing, written_at, begun, built, build_acl, build_event};

use h4_packets::{Indicator, Refusal};

pub mod boundary;
pub mod code;

// Bytes of a packet before its data or its parameters, the indicator counted.
pub const ACL_HEADER: usize = 5;

pub const EVENT_HEADER: usize = 3;

// The longest data of a packet that a stream takes.
pub const MAX_ACL_DATA: usize = h4_packets::LONGEST - ACL_HEADER;

// The most parameter bytes that an event's length can tell.
pub const MAX_PARAMS: usize = 255;

// Parameter bytes of Number Of Completed Packets in front of its pairs.
const HANDLES_HEAD: usize = 1;

// Bytes of a handle and its count.
const PAIR: usize = 4;

// The first refusal of a packet with n bytes behind its front, in an output of room bytes; at most `most` bytes are taken behind it.
fn gate(room: usize, front: usize, n: usize, most: usize) -> Result<(), Refusal>
    ensures value { result ≡ refusing (leb (n + front) room) (leb n most) }
    ensures there { OnOk result (n + front ≤ room) }
    ensures few { OnOk result (n ≤ most) }
{
    if !bytes_bounds::is_inside(room, n, front) {
        return Err(Refusal::ShortOutput);
    }
    if most < n {
        return Err(Refusal::LongPacket);
    }
    Ok(())
}

// The bytes stand from at on. It tells where they end.
fn put(out: &mut [u8], at: usize, bytes: &[u8]) -> usize
    requires { at + length bytes.now ≤ length out.old }
    ensures out_after { out.new ≡ written_at out.old at bytes.now }
    ensures end { result ≡ at + length bytes.now }
{
    bytes_copies::copy_in(out, at, bytes, 0, bytes.len());
    at + bytes.len()
}

// Each number in two bytes, from at on.
fn put_numbers(out: &mut [u8], at: usize, numbers: &[u16]) -> usize
    requires { at + 2 * length numbers.now ≤ length out.old }
    ensures out_after { out.new ≡ written_at out.old at (number_bytes numbers.now) }
    ensures end { result ≡ at + 2 * length numbers.now }
{
    let mut end = at;
    for v in numbers {
        let bytes = v.to_le_bytes();
        let next = end + bytes.len();
        out[end..next].copy_from_slice(&bytes);
        end = next;
    }
    end
}

// The refusal of an event of head parameter bytes and n more; its header is written where it is accepted.
fn begin_event(out: &mut [u8], code: u8, head: usize, n: usize) -> Result<(), Refusal>
    requires { head ≤ 4 }
    ensures value { result ≡ refusing (leb (n + head + 3) (length out.old)) (leb (n + head) 255) }
    ensures there { OnOk result (n + head + 3 ≤ length out.old) }
    ensures few { OnOk result (n + head ≤ 255) }
    ensures out_after { out.new ≡ begun result (written_at out.old 0 (event_header code (n + head))) out.old }
{
    gate(out.len(), head + EVENT_HEADER, n, MAX_PARAMS - head)?;
    let params = n + head;
    put(out, 0, &[Indicator::Event as u8, code, params as u8]);
    Ok(())
}

// An event whose parameters stand in two pieces.
fn event_of(out: &mut [u8], code: u8, head: &[u8], rest: &[u8]) -> Result<usize, Refusal>
    requires { length head.now ≤ 4 }
    ensures { built out.new result ≡ build_event out.old code (head.now ++ rest.now) }
{
    begin_event(out, code, head.len(), rest.len())?;
    let at = put(out, EVENT_HEADER, head);
    Ok(put(out, at, rest))
}

// The handle's low 12 bits, and the boundary flag's low 2 above them.
fn acl_word(handle: u16, flag: u8) -> u16
    ensures { result ≡ acl_word handle flag }
{
    let bits = u16::from(flag % 4);
    handle % 0x1000 + 0x1000 * bits
}

// An ACL data packet: the handle's low 12 bits, the boundary flag's low 2, broadcast flag 0, and the data.
pub fn acl(out: &mut [u8], handle: u16, flag: u8, data: &[u8]) -> Result<usize, Refusal>
    ensures { built out.new result ≡ build_acl out.old handle flag «data».now }
{
    let n = data.len();
    gate(out.len(), ACL_HEADER, n, MAX_ACL_DATA)?;
    let at = put(out, 0, &[Indicator::Acl as u8]);
    let at = put_numbers(out, at, &[acl_word(handle, flag), n as u16]);
    Ok(put(out, at, data))
}

// An event packet.
pub fn event(out: &mut [u8], code: u8, params: &[u8]) -> Result<usize, Refusal>
    ensures { built out.new result ≡ build_event out.old code params.now }
{
    event_of(out, code, &[], params)
}

// Command Complete: how many commands may be sent, the opcode, and at most 252 return parameters.
pub fn command_complete(
    out: &mut [u8],
    num: u8,
    opcode: u16,
    returned: &[u8],
) -> Result<usize, Refusal>
    ensures { built out.new result
        ≡ build_event out.old code_command_complete (command_complete num opcode returned.now) }
{
    let [low, high] = opcode.to_le_bytes();
    event_of(out, code::COMMAND_COMPLETE, &[num, low, high], returned)
}

// Command Status: the status, how many commands may be sent, the opcode.
pub fn command_status(out: &mut [u8], num: u8, status: u8, opcode: u16) -> Result<usize, Refusal>
    ensures { built out.new result
        ≡ build_event out.old code_command_status (command_status num status opcode) }
{
    let [low, high] = opcode.to_le_bytes();
    event_of(out, code::COMMAND_STATUS, &[status, num, low, high], &[])
}

// Number Of Completed Packets: pairs holds handles and counts by turns, at most 63 of each. An odd last number is no pair: it is left out.
pub fn number_of_completed_packets(out: &mut [u8], pairs: &[u16]) -> Result<usize, Refusal>
    ensures { built out.new result
        ≡ build_event out.old code_completed_packets (completed_packets pairs.now) }
{
    let count = pairs.len() / 2;
    // More pairs than fit are told first, so that the product below fits.
    if out.len() / PAIR < count {
        return Err(Refusal::ShortOutput);
    }
    let n = PAIR * count;
    begin_event(out, code::NUMBER_OF_COMPLETED_PACKETS, HANDLES_HEAD, n)?;
    let at = put(out, EVENT_HEADER, &[count as u8]);
    Ok(put_numbers(out, at, &pairs[..2 * count]))
}

// LE Meta: a subevent and at most 254 bytes of its parameters.
pub fn le_meta(out: &mut [u8], subevent: u8, params: &[u8]) -> Result<usize, Refusal>
    ensures { built out.new result
        ≡ build_event out.old code_le_meta (le_meta subevent params.now) }
{
    event_of(out, code::LE_META, &[subevent], params)
}
