// All that is lent, one after another.
use crate::more;

// Of words, or of bytes.
pub fn of<T: Copy + Into<u64>>(h: u64, s: &[T]) -> u64 {
    s.iter().fold(h, |r, x| more(r, (*x).into()))
}
