// Copies of bytes into a lent slice and within one.
#![tactic(auto)]

ghost use Rattle.std.specs.Prelude.{◌≡◌, ◌+◌, ◌≤◌, length};
ghost use Rattle.bytes_base.specs.Splice.{splice, moved};

use bytes_bounds::is_inside;

// Kept: a loop over bytes. The compiler makes a call of memmove of the slices' copy, and the archives for C of the leaves and of H4 need no
// name from outside.
fn copy_known(dst: &mut [u8], at: usize, src: &[u8], from: usize, n: usize)
    requires there { at + n ≤ length dst.old }
    requires source { from + n ≤ length src.now }
    ensures { dst.new ≡ splice dst.old at src.now from n }
{
    for i in 0..n {
        dst[at + i] = src[from + i];
    }
}

// n bytes of src from index from on, to dst from index at on; nothing where either has them not.
pub fn copy_in(dst: &mut [u8], at: usize, src: &[u8], from: usize, n: usize)
    ensures { dst.new ≡ splice dst.old at src.now from n }
{
    if is_inside(dst.len(), at, n) && is_inside(src.len(), from, n) {
        copy_known(dst, at, src, from, n);
    }
}

// n bytes of d from index from on, to d from index at on, downward or to a disjoint place; else nothing.
pub fn copy_within(d: &mut [u8], at: usize, from: usize, n: usize)
    ensures { d.new ≡ moved d.old at from n }
{
    if is_inside(d.len(), at, n) && is_inside(d.len(), from, n) {
        if at <= from || n <= at - from {
            d.copy_within(from..from + n, at);
        }
    }
}
