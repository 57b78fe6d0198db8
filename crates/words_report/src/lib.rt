// Reports in the lent words: the advertiser, the time and one word more for each of 64 places. And the advertisers that the running scan has
// asked: one word for each of 128 places.
#![tactic(auto)]

ghost use Rattle.std.specs.Prelude.{◌≡◌, ◌&&◌, position, not, ◌≤◌, ◌<◌, take, set, eqb};
ghost use Rattle.bytes_base.specs.Choice.{pick};
ghost use Rattle.state_places.specs.Sizes.{most_reports, most_keys, data_size};
ghost use Rattle.adv_reports.specs.Key.{seek, among};
ghost use Rattle.adv_reports.specs.Reports.{no_response};
ghost use Rattle.words.specs.Words.{channel_of, pdu_of, data_len_of, response_of};
ghost use Rattle.words.specs.Tables as all;
ghost use Rattle.words.specs.Tables.{who_in, keys_in};
ghost use Rattle.words_report.specs.Places.{report_in, report_put, reports_down};

use time::Micros;
use words::{KEY, REPORT, REPORT_AT, REPORT_WHO};

// A report: its advertiser as one number, when and how it was heard, and the lengths of its bytes. They stand in the store.
#[derive(Clone, Copy)]
pub struct Report {
    pub who: u64,
    pub at: Micros,
    pub channel: u8,
    pub pdu: u8,
    pub len: u8,
    pub response: u8,
}

// The length of a scan response where there is none.
pub const NO_RESPONSE: u8 = 32;

// Where a word's fields begin: the channel has the 8 bits below the PDU type.
const PDU: u64 = 256;

const DATA: u64 = 65_536;

const RESPONSE: u64 = 16_777_216;

const ABSENT: u64 = 4_294_967_296;

// How many values a field has: a byte, a length.
const BYTES: u64 = 256;

const LENGTHS: u64 = 32;

// The bit that says that there is no scan response, as seen from where its length stands.
const NONE: u64 = 256;

// ---- one report

// The length of a scan response, and the bit of none above it.
fn response_bits(n: u8) -> u64
    ensures value { result ≡ pick (eqb n no_response) 256 n }
    ensures small { result ≤ 256 }
{
    if n == NO_RESPONSE {
        return NONE;
    }
    u64::from(n)
}

// All but the advertiser and the time, in one word.
fn word_of(x: Report) -> u64
    requires { (x.len ≤ data_size) × (x.response ≤ no_response) }
    ensures { (channel_of result ≡ x.channel) × (pdu_of result ≡ x.pdu) × (data_len_of result ≡ x.len) × (response_of result ≡ x.response) }
{
    let channel = u64::from(x.channel);
    let pdu = u64::from(x.pdu);
    let len = u64::from(x.len);
    let response = response_bits(x.response);
    let word = channel + PDU * pdu + DATA * len + RESPONSE * response;
    word
}

fn response_in(word: u64) -> u8
    ensures { (result ≡ response_of word) × (result ≤ no_response) }
{
    if word / ABSENT % 2 == 1 {
        return NO_RESPONSE;
    }
    (word / RESPONSE % LENGTHS) as u8
}

// The report in place i.
pub fn report_at(tables: &[u64; 1152], i: usize) -> Report
    requires { i < most_reports }
    ensures value { result ≡ report_in (all.tables tables.now) i }
    ensures short { (result.len ≤ data_size) × (result.response ≤ no_response) }
{
    let who = tables[REPORT_WHO + i];
    let at = tables[REPORT_AT + i];
    let word = tables[REPORT + i];
    let channel = (word % BYTES) as u8;
    let pdu = (word / PDU % BYTES) as u8;
    let len = (word / DATA % LENGTHS) as u8;
    let response = response_in(word);
    Report {
        who,
        at: Micros(at),
        channel,
        pdu,
        len,
        response,
    }
}

// x goes into place i.
pub fn put_report(tables: &mut [u64; 1152], i: usize, x: Report)
    requires { (i < most_reports) × (x.len ≤ data_size) × (x.response ≤ no_response) }
    ensures { all.tables tables.new ≡ report_put (all.tables tables.old) i x }
{
    tables[REPORT_WHO + i] = x.who;
    tables[REPORT_AT + i] = x.at.0;
    tables[REPORT + i] = word_of(x);
}

// ---- all reports

// The first goes, the others move down by one place, the last stays too.
pub fn shift_reports(tables: &mut [u64; 1152])
    ensures { all.tables tables.new ≡ reports_down (all.tables tables.old) }
{
    words::lower(tables, REPORT_WHO, adv_reports::LAST);
    words::lower(tables, REPORT_AT, adv_reports::LAST);
    words::lower(tables, REPORT, adv_reports::LAST);
}

// Where the first of the words that are the key is.
fn first_of(words: &[u64], key: u64) -> Option<usize>
    ensures { result ≡ position (λ word. eqb word key) words.now }
{
    words.iter().position(|word| *word == key)
}

// Where the first report of an advertiser is, or count.
pub fn find_report(tables: &[u64; 1152], count: usize, key: u64) -> usize
    requires { count ≤ most_reports }
    ensures { (result ≡ seek key (take count (who_in tables.now))) × (result ≤ count) }
{
    first_of(words::row(tables, REPORT_WHO, count), key).unwrap_or(count)
}

// ---- the advertisers that were asked

// Whether the advertiser is to be asked: if any is, and it has not been.
pub fn is_due(asks: bool, tables: &[u64; 1152], count: usize, key: u64) -> bool
    requires { count ≤ most_keys }
    ensures { result ≡ (asks && not (among key (take count (keys_in tables.now)))) }
{
    asks && !words::row(tables, KEY, count).contains(&key)
}

// The advertiser goes into place i.
pub fn put_key(tables: &mut [u64; 1152], i: usize, key: u64)
    requires { i < most_keys }
    ensures { all.tables tables.new ≡ all.with_keys (all.tables tables.old) (set (keys_in tables.old) i key) }
{
    tables[KEY + i] = key;
}
