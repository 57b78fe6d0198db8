// What C calls of the serial transport: a stream is two words and 1,024 bytes that C owns, and each call gives its answer in words.
// `&mut [u64; N]` is a pointer, `&[u8]` a pointer and a length.
#![tactic(auto)]

ghost use Rattle.std.specs.Prelude.{◌≡◌, [], ◌∷◌};
ghost use Rattle.h4_packets.specs.Packet.{packet_length};
ghost use Rattle.h4_stream.specs.Feed.{feeding};
ghost use Rattle.h4_builders.specs.Events.{code_command_complete, command_complete, code_command_status, command_status};
ghost use Rattle.h4_builders.specs.Events.{code_completed_packets, completed_packets, code_le_meta, le_meta};
ghost use Rattle.h4_builders.specs.Build.{build_acl, build_event};
ghost use Rattle.h4_acl.specs.Acl.{parts_of, fragment_of};
ghost use Rattle.c_h4.specs.Words.{lost_in, stream_in, lost_word, stream_words, words_left, fed_words, built_words, length_words, parts_words, fragment_words};
ghost use Rattle.c_h4.specs.After.{fed, after_feed, written, after_build};

use h4_acl::{Acl, Fragment};
use h4_packets::{Lost, Refusal, UndefinedIndicator};
use h4_stream::{Fed, Stream};

// Whether there is what was asked for.
const THERE: u64 = 1;

// ---- a stream in two words: how many bytes are held, and the refusal of a lost one

fn lost_in(word: u64) -> Option<Lost>
    ensures { result ≡ lost_in word }
{
    match word {
        0 => None,
        9 => Some(Lost::ByIndicator),
        _ => Some(Lost::ByLength),
    }
}

#[tactic(auto, unfolding(crate::specs::Words::stream_in))]
fn stream_in(words: &[u64; 2]) -> Stream
    ensures { result ≡ stream_in words.now }
{
    Stream {
        count: words[0] as usize,
        lost: lost_in(words[1]),
    }
}

fn lost_word(lost: Option<Lost>) -> u64
    ensures { result ≡ lost_word lost }
{
    u64::from(h4_packets::told_number(lost.map(Refusal::from)))
}

fn stream_words(stream: Stream) -> [u64; 2]
    ensures { result ≡ stream_words stream }
{
    [stream.count as u64, lost_word(stream.lost)]
}

// The words stay, if nothing was taken.
#[tactic(auto, unfolding(crate::specs::Words::words_left))]
fn give_stream(words: &mut [u64; 2], why: Option<Refusal>, next: Stream)
    ensures { words.new ≡ words_left why next words.old }
{
    match why {
        Some(Refusal::Overheld | Refusal::ShortOutput) => {}
        None | Some(Refusal::BadIndicator | Refusal::LongPacket) => *words = stream_words(next),
    }
}

// ---- answers in words

fn fed_words(a: Fed) -> [u64; 4]
    ensures { result ≡ fed_words a }
{
    let refusal = u64::from(h4_packets::told_number(a.refusal));
    [refusal, a.packets as u64, a.len as u64, 0]
}

fn built_words(built: Result<usize, Refusal>) -> [u64; 4]
    ensures { result ≡ built_words built }
{
    match built {
        Ok(len) => [0, len as u64, 0, 0],
        Err(why) => [u64::from(why.number()), 0, 0, 0],
    }
}

fn length_words(x: Result<Option<usize>, UndefinedIndicator>) -> [u64; 4]
    ensures { result ≡ length_words x }
{
    match x {
        Ok(None) => [0, 0, 0, 0],
        Ok(Some(n)) => [0, THERE, n as u64, 0],
        Err(UndefinedIndicator(byte)) => [
            u64::from(Refusal::BadIndicator.number()),
            0,
            0,
            u64::from(byte),
        ],
    }
}

fn parts_words(x: Option<Acl>) -> [u64; 5]
    ensures { result ≡ parts_words x }
{
    match x {
        Some(acl) => [
            THERE,
            u64::from(acl.handle),
            u64::from(acl.flag),
            acl.place.at as u64,
            acl.place.len as u64,
        ],
        None => [0, 0, 0, 0, 0],
    }
}

fn fragment_words(x: Option<Fragment>) -> [u64; 4]
    ensures { result ≡ fragment_words x }
{
    match x {
        Some(fragment) => [
            THERE,
            u64::from(fragment.begins),
            fragment.place.at as u64,
            fragment.place.len as u64,
        ],
        None => [0, 0, 0, 0],
    }
}

// ---- the stream

// How long the packet at the front is. It tells: refusal 9 or 0, whether the length is known, the length, an undefined indicator.
#[unsafe(no_mangle)]
pub extern "C" fn barleyrope_h4_packet_len_words(bytes: &[u8], told: &mut [u64; 4])
    ensures { told.new ≡ length_words (packet_length bytes.now) }
{
    *told = length_words(h4_packets::h4_packet_len(bytes));
}

// A fresh stream.
#[unsafe(no_mangle)]
pub extern "C" fn barleyrope_h4_reset_words(stream: &mut [u64; 2])
    ensures { stream.new ≡ 0 ∷ 0 ∷ [] }
{
    *stream = stream_words(stream_in(stream).reset());
}

// How many bytes are held. It tells them behind a refusal of 0.
#[unsafe(no_mangle)]
pub extern "C" fn barleyrope_h4_buffered_words(stream: &[u64; 2], told: &mut [u64; 4])
    ensures { told.new ≡ 0 ∷ (stream_in stream.now).count ∷ 0 ∷ 0 ∷ [] }
{
    let count = stream_in(stream).buffered() as u64;
    *told = [0, count, 0, 0];
}

// Bytes come in: whole packets go end to end to the front of the output. It tells: refusal, packets, their bytes.
#[unsafe(no_mangle)]
pub extern "C" fn barleyrope_h4_feed_words(
    stream: &mut [u64; 2],
    held: &mut [u8; 1024],
    bytes: &[u8],
    out: &mut [u8],
    told: &mut [u64; 4],
)
    ensures { fed told.new stream.new held.new out.new
        ≡ after_feed stream.old (feeding (stream_in stream.old) held.old bytes.now out.old) }
{
    let before = stream_in(stream);
    let answer = h4_stream::feed(before, held, bytes, out);
    let why = answer.refusal;
    let next = answer.stream;
    *told = fed_words(answer);
    give_stream(stream, why, next);
}

// ---- the builders. They tell: refusal, bytes of the packet

#[unsafe(no_mangle)]
pub extern "C" fn barleyrope_h4_acl_words(
    out: &mut [u8],
    handle: u16,
    flag: u8,
    data: &[u8],
    told: &mut [u64; 4],
)
    ensures { written told.new out.new ≡ after_build (build_acl out.old handle flag «data».now) }
{
    let built = h4_builders::acl(out, handle, flag, data);
    *told = built_words(built);
}

#[unsafe(no_mangle)]
pub extern "C" fn barleyrope_h4_event_words(
    out: &mut [u8],
    code: u8,
    params: &[u8],
    told: &mut [u64; 4],
)
    ensures { written told.new out.new ≡ after_build (build_event out.old code params.now) }
{
    let built = h4_builders::event(out, code, params);
    *told = built_words(built);
}

#[unsafe(no_mangle)]
pub extern "C" fn barleyrope_h4_command_complete_words(
    out: &mut [u8],
    num: u8,
    opcode: u16,
    returned: &[u8],
    told: &mut [u64; 4],
)
    ensures { written told.new out.new ≡ after_build (build_event out.old code_command_complete (command_complete num opcode returned.now)) }
{
    let built = h4_builders::command_complete(out, num, opcode, returned);
    *told = built_words(built);
}

#[unsafe(no_mangle)]
pub extern "C" fn barleyrope_h4_command_status_words(
    out: &mut [u8],
    num: u8,
    status: u8,
    opcode: u16,
    told: &mut [u64; 4],
)
    ensures { written told.new out.new ≡ after_build (build_event out.old code_command_status (command_status num status opcode)) }
{
    let built = h4_builders::command_status(out, num, status, opcode);
    *told = built_words(built);
}

// Handles and counts by turns.
#[unsafe(no_mangle)]
pub extern "C" fn barleyrope_h4_number_of_completed_packets_words(
    out: &mut [u8],
    pairs: &[u16],
    told: &mut [u64; 4],
)
    ensures { written told.new out.new ≡ after_build (build_event out.old code_completed_packets (completed_packets pairs.now)) }
{
    let built = h4_builders::number_of_completed_packets(out, pairs);
    *told = built_words(built);
}

#[unsafe(no_mangle)]
pub extern "C" fn barleyrope_h4_le_meta_words(
    out: &mut [u8],
    subevent: u8,
    params: &[u8],
    told: &mut [u64; 4],
)
    ensures { written told.new out.new ≡ after_build (build_event out.old code_le_meta (le_meta subevent params.now)) }
{
    let built = h4_builders::le_meta(out, subevent, params);
    *told = built_words(built);
}

// ---- ACL packets that came in

// It tells: whether it is one, handle, boundary flag, place and length of its data.
#[unsafe(no_mangle)]
pub extern "C" fn barleyrope_h4_acl_parts_words(packet: &[u8], told: &mut [u64; 5])
    ensures { told.new ≡ parts_words (parts_of packet.now) }
{
    *told = parts_words(h4_acl::acl_parts(packet));
}

// What the fragment call takes of it, on the link of this handle. It tells: whether there is something, whether a frame begins,
// place and length of the bytes.
#[unsafe(no_mangle)]
pub extern "C" fn barleyrope_h4_fragment_words(packet: &[u8], handle: u16, told: &mut [u64; 4])
    ensures { told.new ≡ fragment_words (fragment_of packet.now handle) }
{
    *told = fragment_words(h4_acl::fragment_of(packet, handle));
}
