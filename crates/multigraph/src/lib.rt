// Pairs over scratch words: module 1 of document 01, `RegularBipartiteMultiGraph`.
//
// One table holds the ends of every pair, two words at the pair's number. A graph is a header (its own base), the count of its
// entries, and for each entry a pair's number and its copies. The Rust looks for a pair by its ends (`find_edge`); here one
// word in a map of places answers that. specs/Stored.antt says which graph lies in the words, specs/Places.antt what the map is.
//
// Ported from rustworkx-core, `RegularBipartiteMultiGraph` in bipartite_coloring.rs (Apache License 2.0, see NOTICE).
#![tactic(auto)]

ghost use Rattle.std.specs.Prelude.{◌≡◌, ℕ, ◌+◌, ◌*◌, ◌-◌, ◌<◌, ◌≤◌, length, take, drop, MatchOption};
ghost use Rattle.words.specs.Words.{word, put_word, word_limit};
ghost use Rattle.multigraph.specs.Places.{size, copies_of, MapsPlaces, AddsEdge, AddsMatching, RemovesMatching};
ghost use Rattle.words.specs.Sides.{offset_of};
ghost use Rattle.multigraph.specs.Stored.{head_m};
ghost use Rattle.multigraph.specs.Steps.{Writes, less_of, rest_words, rest_next, CopiesRest};

use words::{EdgeIndex, NodeIndex, Side, get, put};

// The end of pair `e` on one side.
pub fn end_of(s: &[u32], ends: usize, side: Side, e: EdgeIndex) -> NodeIndex
    requires { ends + 2 * e.0 + offset_of side < length s.now }
    ensures { result.0 ≡ word s.now (ends + 2 * e.0 + offset_of side) }
{
    NodeIndex(s[ends + 2 * e.index() + side.offset()])
}

// The pair whose number stands at `at`.
pub fn pair_at(s: &[u32], at: usize) -> EdgeIndex
    ensures { result.0 ≡ word s.now at }
{
    let e = get(s, at);
    EdgeIndex::new(e)
}

// The head of a graph: its base and the number of its entries.
pub fn head(s: &mut [u32], g: usize, n: usize)
    requires { g < word_limit }
    ensures { s.new ≡ head_m g s.old n }
{
    put(s, g, g);
    put(s, g + 1, n);
}

// Writes entry `i` of the graph at `g`.
fn put_entry(s: &mut [u32], g: usize, i: usize, e: EdgeIndex, copies: usize)
    requires { (g < word_limit) × (i < word_limit) }
    ensures { s.new ≡ put_word (put_word s.old (g + 2 + 2 * i) e.0) (g + 3 + 2 * i) copies }
{
    put(s, g + 2 + 2 * i, e.index());
    put(s, g + 3 + 2 * i, copies);
}

// Adds to the word at `at`; the sum is cut to 32 bits.
fn add_to(s: &mut [u32], at: usize, copies: usize)
    ensures { s.new ≡ put_word s.old at (word s.old at + copies) }
{
    let c = get(s, at);
    put(s, at, c.wrapping_add(copies));
}

// The numbers of `n` pairs, side by side at `at`.
#[derive(Clone, Copy)]
pub struct PairNumbers {
    pub at: usize,
    pub n: usize,
    pub ghost at_small: { at < word_limit },
    pub ghost n_small: { n < word_limit },
}

// A graph and where its map of places begins.
#[derive(Clone, Copy)]
pub struct MappedGraph {
    pub g: usize,
    pub places: usize,
    pub ghost g_small: { g < word_limit },
    pub ghost places_small: { places < word_limit },
}

impl MappedGraph {
    // Puts `x` into the map for the pair whose number stands at `at`.
    fn write_place(self, s: &mut [u32], at: usize, x: usize)
        ensures { s.new ≡ put_word s.old (self.places + word s.old at) x }
    {
        let e = pair_at(s, at);
        put(s, self.places + e.index(), x);
    }

    // The pairs of these numbers are absent.
    fn write_absent(self, s: &mut [u32], keys: PairNumbers)
        ensures { Writes (λ (i : ℕ). keys.at + i) (λ (i : ℕ). 0) keys.n self.places s.old s.new }
    {
        for i in 0..keys.n {
            self.write_place(s, keys.at + i, 0);
        }
    }

    // Each entry of the graph gets its place plus 1.
    fn write_places(self, s: &mut [u32])
        ensures { Writes (λ (i : ℕ). self.g + 2 + 2 * i) (λ (i : ℕ). i + 1) (size s.old self.g) self.places s.old s.new }
    {
        let m = get(s, self.g + 1);
        for i in 0..m {
            self.write_place(s, self.g + 2 + 2 * i, i + 1);
        }
    }

    // Makes the map ready for these keys: each is absent, or stands at its place in the graph. Nothing else of the map
    // is cleared.
    pub fn map_places(self, s: &mut [u32], keys: PairNumbers)
        ensures { MapsPlaces self.places self.g keys.at keys.n s.old s.new }
    {
        self.write_absent(s, keys);
        self.write_places(s);
    }

    // The place of pair `e` among the entries, if the map has one: its word is the place plus 1, or 0.
    fn place_of(self, s: &[u32], e: EdgeIndex) -> Option<usize>
        ensures { MatchOption result (word s.now (self.places + e.0) ≡ 0) (λ i. word s.now (self.places + e.0) ≡ i + 1) }
    {
        get(s, self.places + e.index()).checked_sub(1)
    }

    // A new entry, the last one of the graph, of which `m` stand there.
    fn push_entry(self, s: &mut [u32], m: usize, e: EdgeIndex, copies: usize)
        requires { m < word_limit }
        ensures { s.new ≡ put_word (put_word (put_word s.old (self.g + 2 + 2 * m) e.0) (self.g + 3 + 2 * m) copies) (self.g + 1) (m + 1) }
    {
        put_entry(s, self.g, m, e, copies);
        put(s, self.g + 1, m + 1);
    }

    // `add_edge`: adds copies to the entry whose place the map has for `key`; or a new entry with `number` comes last.
    pub fn add_edge(self, s: &mut [u32], key: EdgeIndex, number: EdgeIndex, copies: usize)
        ensures { AddsEdge self.places self.g key.0 number.0 copies s.old s.new }
    {
        if let Some(i) = self.place_of(s, key) {
            add_to(s, self.g + 3 + 2 * i, copies);
            return;
        }
        let m = get(s, self.g + 1);
        self.push_entry(s, m, number, copies);
        put(s, self.places + key.index(), m + 1);
    }

    // One more copy of the pair whose number stands at `at`.
    fn add_number(self, s: &mut [u32], at: usize)
        ensures { AddsEdge self.places self.g (word s.old at) (word s.old at) 1 s.old s.new }
    {
        let e = pair_at(s, at);
        self.add_edge(s, e, e, 1);
    }

    // `add_matching`: one copy more of each of the pairs of these numbers.
    pub fn add_matching(self, s: &mut [u32], m: PairNumbers)
        ensures { AddsMatching self.places self.g m.at m.n s.old s.new }
    {
        self.map_places(s, m);
        for i in 0..m.n {
            self.add_number(s, m.at + i);
        }
    }

    // How many copies of entry `i`, whose number is `e`, stay: one goes where the map says absent.
    fn left_over(self, s: &[u32], i: usize, e: EdgeIndex) -> usize
        requires { i < word_limit }
        ensures { result ≡ copies_of s.now self.g i - less_of (word s.now (self.places + e.0)) }
    {
        let c = get(s, self.g + 3 + 2 * i);
        if self.place_of(s, e).is_some() {
            return c;
        }
        c.saturating_sub(1)
    }

    // Copies entry `i` to place `at` of the graph at `to`, with what is left of it. Gives the next place: the same one where nothing is
    // left.
    fn rest_step(self, s: &mut [u32], to: usize, at: usize, i: usize) -> usize
        requires to_lt_word_limit { to < word_limit }
        requires at_le_i { at ≤ i }
        requires i_lt_word_limit { i < word_limit }
        ensures { (s.new ≡ rest_words self.places self.g to at i s.old) × (result ≡ rest_next self.places self.g at i s.old) }
    {
        let e = pair_at(s, self.g + 2 + 2 * i);
        let left = self.left_over(s, i, e);
        put_entry(s, to, at, e, left);
        if left > 0 {
            return at + 1;
        }
        at
    }

    // Copies the entries to `to`, each with what is left of it; gives how many there are then.
    fn copy_rest(self, s: &mut [u32], to: usize) -> usize
        requires { to < word_limit }
        ensures { CopiesRest self.places self.g to (size s.old self.g) result s.old s.new }
    {
        let m = get(s, self.g + 1);
        let mut at = 0;
        for i in 0..m {
            at = self.rest_step(s, to, at, i);
        }
        at
    }

    // `remove_matching`: writes at `to` the graph without the pairs of these numbers.
    pub fn remove_matching(self, s: &mut [u32], to: usize, m: PairNumbers)
        requires { to < word_limit }
        ensures { RemovesMatching self.places self.g to m.at m.n s.old s.new }
    {
        self.write_places(s);
        self.write_absent(s, m);
        let k = self.copy_rest(s, to);
        head(s, to, k);
    }
}

// Matching `i` of those that lie side by side at `out`, `n` numbers each, as the stretch of words that holds it.
pub fn matching<'a>(scratch: &'a [u32], out: usize, n: usize, i: usize) -> &'a [u32]
    requires { out + n * i + n ≤ length scratch.now }
    ensures { result.now ≡ take n (drop (out + n * i) scratch.now) }
{
    let at = out + n * i;
    let end = at + n;
    &scratch[at..end]
}
