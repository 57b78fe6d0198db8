// For the comparison with the Rust alone: the leaves that the collector does not call, on numbers and bytes.
#![tactic(auto)]

ghost use Rattle.std.specs.Prelude.{◌≡◌, ◌+◌, ◌*◌, ◌^◌, length};
ghost use Rattle.bytes_base.specs.Splice.{splice};
ghost use Rattle.uuid_value.specs.Value.{att_uuid, att_of};
ghost use Rattle.uuid_text.specs.Text.{parse_uuid};
ghost use Rattle.adv_data.specs.Body.{listed_body};
ghost use Rattle.adv_name.specs.Name.{local_name};
ghost use Rattle.collector.specs.Found.{start_of, count_of};
ghost use Rattle.tool_leaf_exports.specs.Answer.{is_uuid, low_of, high_of, is_place};

use uuid_value::Uuid;

// The halves of the UUID that text is; both places keep what they held where it is none.
#[unsafe(no_mangle)]
pub extern "C" fn leaf_parse(text: &[u8], low: &mut u64, high: &mut u64) -> bool
    ensures value { result ≡ is_uuid (parse_uuid text.now) }
    ensures low_after { low.new ≡ low_of (parse_uuid text.now) low.old }
    ensures high_after { high.new ≡ high_of (parse_uuid text.now) high.old }
{
    match uuid_text::parse(text) {
        Some(named) => {
            *low = named.low;
            *high = named.high;
            true
        }
        None => false,
    }
}

// The halves of the UUID that bytes of ATT are; both places keep what they held where they are none.
#[unsafe(no_mangle)]
pub extern "C" fn leaf_from_att(bytes: &[u8], low: &mut u64, high: &mut u64) -> bool
    ensures value { result ≡ is_uuid (att_uuid bytes.now) }
    ensures low_after { low.new ≡ low_of (att_uuid bytes.now) low.old }
    ensures high_after { high.new ≡ high_of (att_uuid bytes.now) high.old }
{
    match Uuid::from_att(bytes) {
        Some(carried) => {
            *low = carried.low;
            *high = carried.high;
            true
        }
        None => false,
    }
}

// How many bytes ATT carries for a UUID; they are put at the start of a lent slice, with zeros up to 16.
#[unsafe(no_mangle)]
pub extern "C" fn leaf_to_att(low: u64, high: u64, out: &mut [u8]) -> usize
    ensures value { result ≡ (att_of (low + 2 ^ 64 * high)).len }
    ensures out_after { out.new ≡ splice out.old 0 (att_of (low + 2 ^ 64 * high)).bytes 0 16 }
{
    let att = Uuid { low, high }.to_att();
    let bytes = att.bytes;
    bytes_copies::copy_in(out, 0, &bytes, 0, 16);
    att.len
}

// Where the local name stands; both places keep what they held where there is none.
#[unsafe(no_mangle)]
pub extern "C" fn leaf_local_name(data: &[u8], start: &mut usize, count: &mut usize) -> bool
    ensures value { result ≡ is_place (local_name «data».now) }
    ensures start_after { start.new ≡ start_of (local_name «data».now) start.old }
    ensures count_after { count.new ≡ count_of (local_name «data».now) count.old }
{
    match adv_name::ad_local_name(data) {
        Some(body) => {
            *start = body.at;
            *count = body.len;
            true
        }
        None => false,
    }
}

// How many bytes the matched body of a report has; they are put at the start of a lent slice where it has room for them.
#[unsafe(no_mangle)]
pub extern "C" fn leaf_listed_body<'a>(
    data: &'a [u8],
    response: &'a [u8],
    low: u64,
    high: u64,
    out: &mut [u8],
) -> usize
    ensures value { result ≡ length (listed_body (low + 2 ^ 64 * high) «data».now response.now) }
    ensures out_after { out.new ≡ splice out.old 0 (listed_body (low + 2 ^ 64 * high) «data».now response.now) 0 result }
{
    let body = adv_listing::listed_body(data, response, Uuid { low, high });
    let n = body.len();
    bytes_copies::copy_in(out, 0, body, 0, n);
    n
}
