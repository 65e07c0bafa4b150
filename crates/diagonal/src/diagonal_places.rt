// The diagonal: the pairs of left i and right i, to which the search for a matching (module 5) adds copies. Place i of the diagonal is
// left i and right i; its pair's number goes to `diag + i`. Each party's place stands at `b` plus the party. Of a graph with m pairs
// the numbers from m on are free: the row m + i of the table of ends is place i's own.
ghost use Rattle.std.specs.Prelude.{◌≡◌, ◌+◌};
ghost use Rattle.words.specs.Words.{word};
ghost use Rattle.diagonal.specs.Contract.{CanDiagonal, DiagonalSet};
ghost use Rattle.diagonal.specs.DiagonalPlaces.{begun, Begins, DiagSmall, DiagFit, Begun, Looks, LookedAt, DiagReady, Looked};

use list_pairs::Bases;
use list_pairs::ends::same_ends;
use words::{get, set_word, word_at};

// Where the diagonal lies: its `n` numbers at `diag`, and each party's place at `b` plus the party, for the graph at `at`, which has `m`
// pairs. All these places are small numbers.
#[derive(Clone, Copy)]
struct Places {
    at: Bases,
    diag: usize,
    b: usize,
    m: usize,
    n: usize,
    ghost small: { DiagSmall at diag b },
}

impl Places {
    // Place `i` begins: both parties learn it, its number is `m + i` for now, and the row of that number has its ends.
    fn begin_place(self, s: &mut [u32], i: usize)
        requires { Begins self.at self.diag self.b self.m i s.old }
        ensures { s.new ≡ begun self.at.ends self.diag self.b self.m i (word s.old (self.at.left + i)) (word s.old (self.at.right + i)) s.old }
    {
        let l = word_at(s, self.at.left + i);
        let r = word_at(s, self.at.right + i);
        let row = self.at.ends + 2 * (self.m + i);
        set_word(s, self.b + l, i);
        set_word(s, self.b + r, i);
        set_word(s, self.diag + i, self.m + i);
        set_word(s, row, l);
        set_word(s, row + 1, r);
    }

    // All `n` places begin.
    #[tactic(auto, using(crate::proofs::BeginLaws::begins, crate::proofs::BeginLaws::begun_more))]
    fn begin_places(self, s: &mut [u32])
        requires { DiagFit self.n self.at self.diag self.b self.m s.old }
        ensures { Begun self.n self.at self.diag self.b self.m self.n s.old s.new }
    {
        for i in 0..self.n {
            self.begin_place(s, i);
        }
    }

    // Pair `e` gives its number to a place whose two parties are its ends. The place is read with a test: that an end of a pair is
    // below n + n isn't asked for.
    fn look_at(self, s: &mut [u32], e: usize)
        requires { Looks self.n self.at self.diag e s.old }
        ensures { LookedAt self.n self.at self.diag self.b e s.old s.new }
    {
        let x = word_at(s, self.at.ends + 2 * e);
        let y = word_at(s, self.at.ends + 2 * e + 1);
        let i = get(s, self.b + x);
        if i >= self.n {
            return;
        }
        let l = word_at(s, self.at.left + i);
        let r = word_at(s, self.at.right + i);
        if same_ends(l, r, x, y) {
            set_word(s, self.diag + i, e);
        }
    }

    // All pairs are looked at, of which there are `m`.
    fn look_at_pairs(self, s: &mut [u32])
        requires { DiagReady self.n self.at self.diag self.b self.m s.old }
        ensures { Looked self.n self.at self.diag self.m self.m s.old s.new }
    {
        for e in 0..self.m {
            self.look_at(s, e);
        }
    }
}

// The same as `diagonal`, where the words from `u` on are free.
pub(crate) fn diagonal_at(s: &mut [u32], u: usize, n: usize, at: Bases, diag: usize)
    requires { CanDiagonal n at diag u s.old }
    ensures { DiagonalSet n at diag u s.old u s.new }
{
    let m = get(s, at.g + 1);
    let places = Places {
        at,
        diag,
        b: u,
        m,
        n,
    };
    places.begin_places(s);
    places.look_at_pairs(s);
}
