// An H4 byte stream cut into whole packets, with the bytes of an unfinished one held between feeds: hci.rs, H4Stream; 02, Three.
#![tactic(auto)]

ghost use Rattle.std.specs.Prelude.{◌≡◌, Some, ◌++◌, ◌+◌, ◌-◌, ◌^◌, ◌≤◌, ◌<◌, length, get_or, take, drop};
ghost use Rattle.lists.specs.Queue.{onto};
ghost use Rattle.h4_packets.specs.Numbers.{longest};
ghost use Rattle.h4_packets.specs.Front.{front};
ghost use Rattle.h4_stream.specs.Cut.{cut};
ghost use Rattle.h4_stream.specs.Feed.{fresh, in_hand, reached, answered, outcome, given, feeding};

use h4_packets::{Lost, Refusal};

// The bytes held are the first `count` of the 1,024 that are lent beside it; `lost` says how framing was lost, if it was.
#[derive(Clone, Copy, PartialEq, Eq, Default)]
pub struct Stream {
    pub count: usize,
    pub lost: Option<Lost>,
}

// What a feed answers: how many packets are in the output, end to end, and in how many bytes.
#[derive(Clone, Copy, PartialEq, Eq)]
pub struct Fed {
    pub stream: Stream,
    pub refusal: Option<Refusal>,
    pub packets: usize,
    pub len: usize,
}

// The bytes in hand: those held, then those fed.
#[derive(Clone, Copy)]
struct Hand<'a> {
    held: &'a [u8],
    fed: &'a [u8],
}

// How far whole packets reach, and how framing is lost behind them, if it is.
#[derive(Clone, Copy)]
struct Reach {
    packets: usize,
    len: usize,
    lost: Option<Lost>,
}

impl Stream {
    pub fn new() -> Self
        ensures { result ≡ fresh }
    {
        Self::default()
    }

    // Held bytes and a lost framing are forgotten.
    pub fn reset(self) -> Self
        ensures { result ≡ fresh }
    {
        Stream::new()
    }

    pub fn buffered(self) -> usize
        ensures { result ≡ self.count }
    {
        self.count
    }
}

impl<'a> Hand<'a> {
    ghost use Rattle.h4_stream.specs.Hand.{bytes_of};

    fn len(self) -> usize
        ensures { result ≡ length (bytes_of self.entry) }
    {
        self.held.len() + self.fed.len()
    }

    // What stands at the front of the bytes from index at on: a whole packet's length, or None where more is needed.
    fn front_at(self, at: usize) -> Result<Option<usize>, Lost>
        requires { at ≤ length (bytes_of self) }
        ensures { result ≡ front (drop at (bytes_of self.entry)) }
    {
        let left = self.len() - at;
        let size = h4_packets::packet_len(self.held, self.fed, at)?;
        match size {
            Some(n) if h4_packets::LONGEST < n => Err(Lost::ByLength),
            Some(n) if n <= left => Ok(Some(n)),
            _ => Ok(None),
        }
    }

    // How far the whole packets reach, and what ends them.
    fn find_packets(self) -> Reach
        requires { length (bytes_of self) < 2 ^ 64 }
        ensures { result ≡ reached 0 0 (cut (bytes_of self.entry)) }
    {
        let mut packets: usize = 0;
        let mut len: usize = 0;
        // Kept: a loop, since the step is each packet's length; no `for` or iterator has it beforehand.
        loop {
            match self.front_at(len) {
                Ok(Some(n)) => {
                    len += n;
                    packets += 1;
                }
                Ok(None) => {
                    return Reach {
                        packets,
                        len,
                        lost: None,
                    };
                }
                Err(lost) => {
                    return Reach {
                        packets,
                        len,
                        lost: Some(lost),
                    };
                }
            }
        }
    }

    // The first len bytes go to the front of the output. Where no packet is found, nothing is copied: a feed of one byte must not cost two empty copies.
    fn put(self, out: &mut [u8], len: usize)
        requires inside { len ≤ length (bytes_of self) }
        requires room { length (bytes_of self) ≤ length out.old }
        ensures { out.new ≡ onto out.old (take len (bytes_of self.entry)) }
    {
        if 0 < len {
            let held = len.min(self.held.len());
            bytes_copies::copy_in(out, 0, self.held, 0, held);
            bytes_copies::copy_in(out, held, self.fed, 0, len - held);
        }
    }
}

// ---- bytes held

// The n bytes held from index from on go to the front. Where they stand there, nothing is copied: a feed of one byte must not cost all that is held.
fn lower(held: &mut [u8], from: usize, n: usize)
    requires { from + n ≤ length held.old }
    ensures { held.new ≡ take n (drop from held.old) ++ drop n held.old }
{
    // Kept: a loop over bytes, as bytes_copies has one: the archive for C needs no name from outside.
    if 0 < from {
        for i in 0..n {
            held[i] = held[from + i];
        }
    }
}

// The bytes in hand from index len on go to the front of those held.
fn keep_rest(held: &mut [u8], count: usize, fed: &[u8], len: usize)
    requires inside { count ≤ length held.old }
    requires len_inside { len ≤ count + length fed.now }
    requires room { count + length fed.now ≤ len + length held.old }
    ensures { held.new ≡ onto held.old (drop len (in_hand count held.old fed.now)) }
{
    let gone = len.min(count);
    let kept = count - gone;
    lower(held, gone, kept);
    let past = len - gone;
    bytes_copies::copy_in(held, kept, fed, past, fed.len() - past);
}

// ---- the feed

impl Reach {
    // So many bytes are held from now on.
    fn answer(self, count: usize) -> Fed
        ensures { result ≡ answered count self.lost self.packets self.len }
    {
        Fed {
            stream: Stream {
                count,
                lost: self.lost,
            },
            refusal: self.lost.map(Refusal::from),
            packets: self.packets,
            len: self.len,
        }
    }
}

// The packets go out; what is left is held, unless framing is lost.
#[tactic(auto, using(crate::proofs::FeedLaws::rest_by_loss, crate::proofs::FeedLaws::packets_first))]
fn take_in(count: usize, held: &mut [u8], fed: &[u8], out: &mut [u8]) -> Fed
    requires { (count ≤ longest) × ((length held.old ≡ longest) × (count + length fed.now ≤ length out.old)) }
    ensures { outcome result held.new out.new
        ≡ given (cut (in_hand count held.old fed.now)) held.old out.old }
{
    let hand = Hand {
        held: &held[..count],
        fed,
    };
    let total = hand.len();
    let found = hand.find_packets();
    hand.put(out, found.len);
    match found.lost {
        None => {
            keep_rest(held, count, fed, found.len);
            found.answer(total - found.len)
        }
        Some(_) => found.answer(0),
    }
}

fn refuse(stream: Stream, why: Refusal) -> Fed
    ensures { result ≡ record { stream = stream; refusal = Some why; packets = 0; len = 0 } }
{
    Fed {
        stream,
        refusal: Some(why),
        packets: 0,
        len: 0,
    }
}

// hci.rs, feed; 02: packets found before a bad place come first, then the refusal.
#[tactic(auto, unfolding(crate::specs::Feed::feeding, crate::specs::Cut::joined))]
pub fn feed(stream: Stream, held: &mut [u8; 1024], fed: &[u8], out: &mut [u8]) -> Fed
    ensures { outcome result held.new out.new ≡ feeding stream held.old fed.now out.old }
{
    let count = stream.count;
    if h4_packets::LONGEST < count {
        return refuse(stream, Refusal::Overheld);
    }
    if !bytes_bounds::is_inside(out.len(), count, fed.len()) {
        return refuse(stream, Refusal::ShortOutput);
    }
    let nothing = Reach {
        packets: 0,
        len: 0,
        lost: stream.lost,
    };
    match stream.lost {
        None => take_in(count, held, fed, out),
        Some(_) => nothing.answer(0),
    }
}
