// Words, numbers, times and bytes to standard output.
#![tactic(auto)]

use uuid_value::Uuid;

// Standard output.
const STDOUT_FILENO: i32 = 1;

pub mod clock;

pub fn text(s: &[u8]) {
    io::write_all(STDOUT_FILENO, s);
}

pub fn line(s: &[u8]) {
    text(s);
    text(b"\n");
}

pub fn number(n: u64) {
    io::print_decimal(STDOUT_FILENO, n);
}

// A number between words.
pub fn told(before: &[u8], n: u64, after: &[u8]) {
    text(before);
    number(n);
    text(after);
}

// A number in so many hex digits.
pub fn hex(n: u64, width: usize) {
    io::print_hex(STDOUT_FILENO, n, width);
}

fn space() {
    text(b" ");
}

// A byte in hex, with a space before it.
fn byte(b: u8) {
    space();
    hex(b as u64, 2);
}

// The first n bytes of s in hex.
pub fn first(s: &[u8], n: usize) {
    for b in s.iter().take(n) {
        byte(*b);
    }
}

pub fn bytes(s: &[u8]) {
    for b in s {
        byte(*b);
    }
}

// Spaces from a column up to another.
pub fn spaces(from: usize, to: usize) {
    for _ in from..to {
        space();
    }
}

// The part of s from start on, of so many bytes; nothing where it is not there.
pub fn part(s: &[u8], start: usize, n: usize) {
    if n <= s.len() && start <= s.len() - n {
        text(&s[start..start + n]);
    }
}

fn hex_and_dash(n: u64, width: usize) {
    hex(n, width);
    text(b"-");
}

// A 16-bit UUID as its 4 digits, any other as 8-4-4-4-12 digits.
pub fn uuid(u: Uuid) {
    let att = u.to_att();
    if att.len == 2 {
        hex(u.high / 0x1_0000_0000, 4);
        return;
    }
    hex_and_dash(u.high / 0x1_0000_0000, 8);
    hex_and_dash(u.high / 0x1_0000 % 0x1_0000, 4);
    hex_and_dash(u.high % 0x1_0000, 4);
    hex_and_dash(u.low / 0x1_0000_0000_0000, 4);
    hex(u.low % 0x1_0000_0000_0000, 12);
}
