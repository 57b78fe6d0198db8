// The link record, lent and updated where it stands in its bearer. Each thin function has one by value above it, which every other caller uses.
#![tactic(auto)]

ghost use Rattle.std.specs.Prelude.{◌≡◌};
ghost use Rattle.link_record.specs.Record.{new_link, agreed, awaiting, answered, terminated, with_link};

use state::{Bearer, Link};

// Kept: two functions for each change, since the record is lent where it stands, and callers carry a core by value.

// A new link: the default MTU, nothing awaited, not asked to end.
fn open(link: &mut Link, handle: u16)
    ensures { link.new ≡ new_link handle }
{
    link.handle = handle;
    link.mtu = att_pdu::DEFAULT_MTU;
    link.pending = 0;
    link.terminating = false;
}

pub fn opened(b: Bearer, handle: u16) -> Bearer
    ensures { result ≡ with_link b (new_link handle) }
{
    let mut o = b;
    open(&mut o.link, handle);
    o
}

// The link has this MTU from now on.
fn agree_mtu(link: &mut Link, mtu: u16)
    ensures { link.new ≡ agreed link.old mtu }
{
    link.mtu = mtu;
}

pub fn agreed(b: Bearer, mtu: u16) -> Bearer
    ensures { result ≡ with_link b (agreed b.link mtu) }
{
    let mut o = b;
    agree_mtu(&mut o.link, mtu);
    o
}

// The response to a request of this opcode is awaited.
fn await_response(link: &mut Link, opcode: u8)
    ensures { link.new ≡ awaiting link.old opcode }
{
    link.pending = opcode;
}

pub fn awaiting(b: Bearer, opcode: u8) -> Bearer
    ensures { result ≡ with_link b (awaiting b.link opcode) }
{
    let mut o = b;
    await_response(&mut o.link, opcode);
    o
}

// No response is awaited.
fn take_response(link: &mut Link)
    ensures { link.new ≡ answered link.old }
{
    link.pending = 0;
}

pub fn answered(b: Bearer) -> Bearer
    ensures { result ≡ with_link b (answered b.link) }
{
    let mut o = b;
    take_response(&mut o.link);
    o
}

// The link has been asked to end.
fn terminate(link: &mut Link)
    ensures { link.new ≡ terminated link.old }
{
    link.terminating = true;
}

pub fn terminated(b: Bearer) -> Bearer
    ensures { result ≡ with_link b (terminated b.link) }
{
    let mut o = b;
    terminate(&mut o.link);
    o
}
