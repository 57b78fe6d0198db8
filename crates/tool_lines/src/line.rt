// A line under way.
use uuid_value::Uuid;

// Standard output.
const STDOUT_FILENO: i32 = 1;

// A key is an address and, above its 48 bits, its type.
const TYPE_PLACE: u64 = 0x1_0000_0000_0000;

// Digits of an address, and of each half of a UUID.
const ADDRESS_DIGITS: usize = 12;

const HALF_DIGITS: usize = 16;

// The line is the first bytes of a lent buffer. A full buffer is written out on the way, so a line may be longer than it.
#[derive(Drop)]
pub struct Line<'a> {
    to: &'a mut [u8],
    at: usize,
}

// The lower half of a byte as a hex digit.
fn digit(b: u8) -> u8 {
    let d = b % 16;
    if d < 10 { b'0' + d } else { b'a' - 10 + d }
}

// A byte at its place; the next place. A full buffer is written out first.
fn put(to: &mut [u8], at: usize, b: u8) -> usize {
    if at < to.len() {
        to[at] = b;
        return at + 1;
    }
    io::write_all(STDOUT_FILENO, to);
    match to.first_mut() {
        Some(place) => {
            *place = b;
            1
        }
        None => 0,
    }
}

impl<'a> Line<'a> {
    // A line that begins with this text.
    pub fn begin(to: &'a mut [u8], s: &[u8]) -> Self {
        let mut line = Line { to, at: 0 };
        line.text(s);
        line
    }

    fn put(&mut self, b: u8) {
        self.at = put(self.to, self.at, b);
    }

    // Bytes as they are. Buffer and place are locals on the way: a byte must not cost loads and a store of them.
    pub fn text(&mut self, s: &[u8]) {
        let to = &mut *self.to;
        let mut at = self.at;
        for b in s {
            at = put(to, at, *b);
        }
        self.at = at;
    }

    // One more word: a space stands before it.
    pub fn word(&mut self, s: &[u8]) {
        self.put(b' ');
        self.text(s);
    }

    pub fn number<N: Into<u64>>(&mut self, n: N) {
        let mut digits = [0u8; 20];
        let k = io::decimal(n.into(), &mut digits);
        self.word(&digits[..k]);
    }

    // A word and a number.
    pub fn named<N: Into<u64>>(&mut self, name: &[u8], n: N) {
        self.word(name);
        self.number(n);
    }

    // So many hex digits.
    fn digits(&mut self, n: u64, width: usize) {
        let mut digits = [0u8; 16];
        let k = io::hex(n, width, &mut digits);
        self.text(&digits[..k]);
    }

    // The type and the address.
    pub fn key(&mut self, k: u64) {
        self.number(k / TYPE_PLACE);
        self.put(b' ');
        self.digits(k % TYPE_PLACE, ADDRESS_DIGITS);
    }

    pub fn uuid(&mut self, u: Uuid) {
        self.put(b' ');
        self.digits(u.high, HALF_DIGITS);
        self.digits(u.low, HALF_DIGITS);
    }

    // How many, and the bytes, two digits for each.
    fn bytes(&mut self, s: &[u8]) {
        self.number(s.len() as u64);
        if s.is_empty() {
            self.word(b"-");
            return;
        }
        self.put(b' ');
        let to = &mut *self.to;
        let mut at = self.at;
        for b in s {
            at = put(to, at, digit(*b / 16));
            at = put(to, at, digit(*b));
        }
        self.at = at;
    }

    // So many bytes from a place on. A place outside s is none that a fit state has.
    pub fn bytes_at(&mut self, s: &[u8], place: usize, len: usize) {
        let rest = s.get(place..).unwrap_or(&[]);
        match rest.get(..len) {
            Some(bytes) => self.bytes(bytes),
            None => self.word(b"outside"),
        }
    }

    // The line's end; whether all of it could be written.
    pub fn end(&mut self) -> bool {
        self.put(b'\n');
        let n = self.at;
        match self.to.get(..n) {
            Some(line) => io::write_all(STDOUT_FILENO, line),
            None => false,
        }
    }
}

// A line that begins with this text and goes on as `tell` says; whether it could be written.
pub fn write<F: FnOnce(&mut Line)>(to: &mut [u8], s: &[u8], tell: F) -> bool
    requires { F.IsAlwaysCallable tell }
{
    let mut line = Line::begin(to, s);
    tell(&mut line);
    line.end()
}
