// Words in lent slices: reading and writing, with a test (total) or without (at a place that is one), clearing and appending; and the
// numbers of parties and pairs, two kinds. Everything above stands on these.
#![tactic(auto)]

ghost use Rattle.std.specs.Prelude.{◌≡◌, ◌+◌, ℕ, ◌%◌, ◌<◌, ◌≤◌, length, refl, set, slice_index_or};
ghost use Rattle.std.proofs.Common.{rules};
ghost use Rattle.words.specs.Words.{word_limit};
ghost use Rattle.words.specs.Appending.{CanAppend, appended};
ghost use Rattle.words.specs.Clearing.{Cleared};

mod side; // side.rt: the two ends of an appointment or a pair

pub use side::{Side, other_half};

// A party's number.
#[derive(Clone, Copy)]
pub struct NodeIndex(pub u32);

impl NodeIndex {
    // The party of this number.
    pub fn new(x: usize) -> NodeIndex
        requires { x < word_limit }
        ensures { result.0 ≡ x }
    {
        NodeIndex(x as u32)
    }

    // The number, to reckon places with.
    pub fn index(self) -> usize
        ensures { result ≡ self.0 }
    {
        let v = self.0;
        v as usize
    }
}

// A pair's number: its row in the table of ends.
#[derive(Clone, Copy)]
pub struct EdgeIndex(pub u32);

impl EdgeIndex {
    // The pair of this number.
    pub fn new(x: usize) -> EdgeIndex
        requires { x < word_limit }
        ensures { result.0 ≡ x }
    {
        EdgeIndex(x as u32)
    }

    // The number, to reckon places with.
    pub fn index(self) -> usize
        ensures { result ≡ self.0 }
    {
        let e = self.0;
        e as usize
    }
}

// A word of a lent slice, which reads as a number: the 32 bits of a word of scratch, or the 16 of an end, a slot or an output.
pub trait Word: Copy {
    ghost value: { Self → ℕ };

    ghost cut: { ℕ → Self };

    ghost zero: { Self };

    ghost limit: { ℕ };

    // The number that it reads as.
    fn number(self) -> usize
        ensures { (result ≡ value self) × (result < limit) };

    // A number, cut to the word's width.
    fn cut(x: usize) -> Self
        ensures { result ≡ cut x };

    ghost zero_reads_0: { (value zero ≡ 0) × (0 < limit) };

    ghost reads_what_was_cut: { (x : ℕ) → value (cut x) ≡ x % limit };
}

impl Word for u32 {
    ghost value = { λ w. w };

    ghost cut = { λ x. x % word_limit };

    ghost zero = { 0 };

    ghost limit = { word_limit };

    ghost zero_reads_0 = { Prim.search rules };

    ghost reads_what_was_cut = { λ x. refl };

    fn number(self) -> usize {
        self as usize
    }

    fn cut(x: usize) -> u32 {
        (x % 4294967296) as u32
    }
}

impl Word for u16 {
    ghost value = { λ w. w };

    ghost cut = { λ x. x % 65536 };

    ghost zero = { 0 };

    ghost limit = { 65536 };

    ghost zero_reads_0 = { Prim.search rules };

    ghost reads_what_was_cut = { λ x. refl };

    fn number(self) -> usize {
        usize::from(self)
    }

    fn cut(x: usize) -> u16 {
        (x % 65536) as u16
    }
}

// The number that the word at `i` reads as, and 0 past the end.
pub fn get<T: Word>(s: &[T], i: usize) -> usize
    ensures { (result ≡ T.value (slice_index_or s.now i T.zero)) × (result < T.limit) }
{
    if i < s.len() {
        return s[i].number();
    }
    0
}

// Puts `x`, cut to the word's width, at `i`; past the end nothing happens.
pub fn put<T: Word>(s: &mut [T], i: usize, x: usize)
    ensures { s.new ≡ set s.old i (T.cut x) }
{
    if i < s.len() {
        s[i] = T::cut(x);
    }
}

// The number that the word at `i` reads as, which is a place: no test.
pub fn word_at<T: Word>(s: &[T], i: usize) -> usize
    requires { i < length s.now }
    ensures { (result ≡ T.value (slice_index_or s.now i T.zero)) × (result < T.limit) }
{
    s[i].number()
}

// Puts `x`, cut to the word's width, at `i`, which is a place: no test.
pub fn set_word<T: Word>(s: &mut [T], i: usize, x: usize)
    requires { i < length s.old }
    ensures { s.new ≡ set s.old i (T.cut x) }
{
    s[i] = T::cut(x);
}

// Sets the `n` words from `from` on to 0.
pub fn clear(s: &mut [u32], from: usize, n: usize)
    requires { from + n ≤ length s.old }
    ensures { Cleared from n s.old s.new }
{
    s[from..from + n].fill(0);
}

// Puts `w` at the end of the list whose length stands at `k` and whose words start at `a`: a row, a stack or a side.
#[tactic(auto, unfolding(crate::specs::Appending::appended))]
pub fn append(s: &mut [u32], k: usize, a: usize, w: usize)
    requires { CanAppend k a s.old }
    ensures { s.new ≡ appended k a w s.old }
{
    let n = word_at(s, k);
    set_word(s, a + n, w);
    set_word(s, k, n + 1);
}
