// New parties on the shorter side: module 8, "new parties, numbered on from P, are appended to the shorter side".
ghost use Rattle.evening.specs.Sides.{CanPadSide, Padding};

use words::put;

// Appends new parties, numbered on from `p`, to the `k` parties at `at` until there are `n`.
pub(crate) fn pad_side(s: &mut [u32], at: usize, k: usize, n: usize, p: usize)
    requires { CanPadSide at k n p s.old }
    ensures { Padding at k n p s.old s.new }
{
    for i in k..n {
        put(s, at + i, p + (i - k));
    }
}
