// An ACL packet taken apart, and the fragment call that it makes.
#![tactic(auto)]

ghost use Rattle.std.specs.Prelude.{◌≡◌, ◌+◌, ◌≤◌, length};
ghost use Rattle.h4_acl.specs.Acl.{parts_of, acl_data, acl_at, begins, fragment_of, fragment_data, fragment_at, part_in, part_at, end_of};

use bytes_bounds::Span;
use h4_builders::boundary;
use h4_packets::Indicator;

// A split packet: handle, boundary flag, and where its data stands.
#[derive(Clone, Copy)]
pub struct Acl {
    pub handle: u16,
    pub flag: u8,
    pub place: Span,
}

// What a packet is to a connection: whether a frame begins, and where its bytes stand.
#[derive(Clone, Copy)]
pub struct Fragment {
    pub begins: bool,
    pub place: Span,
}

// Where the handle and the length stand.
const HANDLE_AT: usize = 1;

const LENGTH_AT: usize = 3;

// None where it is no ACL packet, or shorter than its header or its stated length.
pub fn acl_parts(packet: &[u8]) -> Option<Acl>
    ensures { result ≡ parts_of packet.now }
{
    let size = packet.len();
    if size < h4_builders::ACL_HEADER {
        return None;
    }
    if packet[0] != Indicator::Acl as u8 {
        return None;
    }
    let len = usize::from(bytes_numbers::le16(packet, LENGTH_AT));
    if size - h4_builders::ACL_HEADER < len {
        return None;
    }
    let word = bytes_numbers::le16(packet, HANDLE_AT);
    Some(Acl {
        handle: word % 0x1000,
        flag: (word / 0x1000 % 4) as u8,
        place: Span {
            at: h4_builders::ACL_HEADER,
            len,
        },
    })
}

// A part of a packet, or an empty one where there is none.
fn part<'a>(packet: &'a [u8], place: Option<Span>) -> &'a [u8]
    requires { end_of place ≤ length packet.now }
    ensures result_value { result.now ≡ part_in place packet.now }
    ensures ref_ptr_value { result.ref_ptr ≡ part_at place packet.entry.ref_ptr }
{
    match place {
        Some(span) => &packet[span.at..span.at + span.len],
        None => &packet[..0],
    }
}

// The data of an ACL packet, or an empty part of what is none.
pub fn acl_data<'a>(packet: &'a [u8]) -> &'a [u8]
    ensures result_value { result.now ≡ acl_data (parts_of packet.now) packet.now }
    ensures ref_ptr_value { result.ref_ptr ≡ acl_at (parts_of packet.now) packet.entry.ref_ptr }
{
    part(packet, acl_parts(packet).map(|acl| acl.place))
}

// Whether a frame begins: flags 00 and 10 begin one, 01 continues one, 11 is nothing.
fn begins(flag: u8) -> Option<bool>
    ensures { result ≡ begins flag }
{
    match flag {
        boundary::FIRST_NON_FLUSHABLE | boundary::FIRST_FLUSHABLE => Some(true),
        boundary::CONTINUING => Some(false),
        _ => None,
    }
}

// The fragment call that a packet makes on the connected handle, or None: no ACL packet, another handle's, flag 11.
pub fn fragment_of(packet: &[u8], connected: u16) -> Option<Fragment>
    ensures { result ≡ fragment_of packet.now connected }
{
    let acl = acl_parts(packet)?;
    if acl.handle != connected {
        return None;
    }
    let begins = begins(acl.flag)?;
    Some(Fragment {
        begins,
        place: acl.place,
    })
}

// The bytes of that fragment, or an empty part of the packet.
pub fn fragment_data<'a>(packet: &'a [u8], connected: u16) -> &'a [u8]
    ensures result_value { result.now ≡ fragment_data (fragment_of packet.now connected) packet.now }
    ensures ref_ptr_value { result.ref_ptr ≡ fragment_at (fragment_of packet.now connected) packet.entry.ref_ptr }
{
    part(
        packet,
        fragment_of(packet, connected).map(|fragment| fragment.place),
    )
}
