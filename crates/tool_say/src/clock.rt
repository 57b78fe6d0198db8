// Times of day and spans of time.
ghost use Rattle.std.specs.Prelude.{◌≤◌};

use crate::{number, spaces, text, told};

const MILLION: u64 = 1_000_000;

const TENTH: u64 = MILLION / 10;

// Seconds of each.
const MINUTE: u64 = 60;

const HOUR: u64 = 3_600;

const DAY: u64 = 86_400;

// A point and six decimals.
const MOST_DECIMALS: usize = 7;

// The characters of a time of day to the second, and of a column with one to the microsecond.
const TO_THE_SECOND: usize = 8;

pub const COLUMN: usize = TO_THE_SECOND + MOST_DECIMALS + 2;

// As many decimals of so many millionths as are needed; how many characters they are, with the point.
fn decimals(millionths: u64) -> usize
    ensures { result ≤ 7 }
{
    let mut rest = millionths % MILLION;
    if rest == 0 {
        return 0;
    }
    text(b".");
    for said in 1..MOST_DECIMALS {
        if rest == 0 {
            return said;
        }
        number(rest / TENTH);
        rest = rest % TENTH * 10;
    }
    MOST_DECIMALS
}

fn two_digits(n: u64) {
    number(n / 10 % 10);
    number(n % 10);
}

// A time of day, as 23:00:02.5, of a clock that counts microseconds from a midnight on; how many characters it is.
pub fn time(us: u64) -> usize {
    let seconds = us / MILLION;
    two_digits(seconds % DAY / HOUR);
    text(b":");
    two_digits(seconds % HOUR / MINUTE);
    text(b":");
    two_digits(seconds % MINUTE);
    TO_THE_SECOND + decimals(us)
}

// The same, with spaces up to the next column.
pub fn column(us: u64) {
    spaces(time(us), COLUMN);
}

// A span of so many microseconds, as 5 h 59 min 57.4 s.
pub fn span(us: u64) {
    let seconds = us / MILLION;
    if HOUR <= seconds {
        told(b"", seconds / HOUR, b" h ");
    }
    if MINUTE <= seconds {
        told(b"", seconds % HOUR / MINUTE, b" min ");
    }
    number(seconds % MINUTE);
    decimals(us);
    text(b" s");
}
