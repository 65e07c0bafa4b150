// Has an appointment, or a pair, two given ends, whichever way round?
ghost use Rattle.std.specs.Prelude.{◌+◌, ◌*◌, ◌<◌, ◌↔◌, length, IsTrue};
ghost use Rattle.words.specs.Words.{word_limit};
ghost use Rattle.multigraph.specs.Regular.{SameEnds};
ghost use Rattle.list_pairs.specs.Ends.{Earlier, Joins};

use words::{get, word_at};

// Are `x` and `y` the ends `a` and `b`, one way round or the other?
pub fn same_ends(a: usize, b: usize, x: usize, y: usize) -> bool
    ensures { IsTrue result ↔ SameEnds a b x y }
{
    x == a && y == b || x == b && y == a
}

// Has appointment `i` the ends `v` and `w`? Read with a test: the search that asks goes on past the half-edges of a row, where
// any number may stand.
pub fn joins(list: &[u16], i: usize, v: usize, w: usize) -> bool
    requires { i < word_limit }
    ensures { IsTrue result ↔ Joins list.now i v w }
{
    let x = get(list, 2 * i);
    let y = get(list, 2 * i + 1);
    same_ends(v, w, x, y)
}

// Is appointment `j` not later than `i`, with the ends `v` and `w`?
pub(crate) fn earlier(list: &[u16], j: usize, i: usize, v: usize, w: usize) -> bool
    requires { 2 * i + 1 < length list.now }
    ensures { IsTrue result ↔ Earlier list.now j i v w }
{
    j <= i && same_ends(v, w, word_at(list, 2 * j), word_at(list, 2 * j + 1))
}
