// Chains of slots over scratch words: the first pass of giving slots, the second half of module 8 of document 01,
// `bipartite_edge_color_given_partition`. The second pass is in the crate `slots`.
//
// The matchings of the colouring lie side by side, matching i is slot i, and each is its pairs' numbers. One pass over them
// makes a chain of each pair's slots, the highest first; it needs one word for each pair and no other room, since a number that
// was read makes room for a link.
//
// A link is one word: a slot times 16,384, and the place among the matchings' words where the pair's next link stands. A
// plan's matchings lie in P·(D+1) words, at most 9,216 by checks 1 and 6, and 16,384 is the next power of two (`few` in
// the specs/Stored.antt of `slots` asks no more than that). A slot is not above its place, so a link is below 2^28.
//
// Ported from rustworkx-core, the second half of `bipartite_edge_color_given_partition` in bipartite_coloring.rs (Apache License 2.0, see NOTICE).
#![tactic(auto)]

ghost use Rattle.std.specs.Prelude.{◌≡◌, ◌+◌, ◌*◌, ◌<◌, ◌≤◌, length};
ghost use Rattle.words.specs.Words.{word, put_word, word_limit};
ghost use Rattle.slot_chains.specs.Steps.{pushed, matching_pushed, all_pushed};

use multigraph::matching;
use words::{EdgeIndex, get, put};

// What a slot counts for in a link.
pub const LINK: usize = 16384;

// Where the matchings of a colouring lie, `d` of them, `n` numbers each, side by side at `out`; and from `links` on a word for each pair,
// its first link.
#[derive(Clone, Copy)]
pub struct Chains {
    pub n: usize,
    pub d: usize,
    pub out: usize,
    pub links: usize,
    pub ghost out_small: { out < word_limit },
    pub ghost links_small: { links < word_limit },
    pub ghost d_small: { d < word_limit },
    pub ghost numbers_small: { n * d < word_limit },
}

impl Chains {
    // The first link of pair `e`.
    pub fn first_link(self, s: &[u32], e: EdgeIndex) -> usize
        ensures { result ≡ word s.now (self.links + e.0) }
    {
        get(s, self.links + e.index())
    }

    // Makes `link` the first link of pair `e`.
    pub fn set_first_link(self, s: &mut [u32], e: EdgeIndex, link: usize)
        ensures { s.new ≡ put_word s.old (self.links + e.0) link }
    {
        put(s, self.links + e.index(), link);
    }

    // Pair `j` of matching `slot`, read in the stretch of words that holds the matching.
    fn pair_in(self, s: &[u32], slot: usize, j: usize) -> EdgeIndex
        requires slot_lt_d { slot < self.d }
        requires d_in_bounds { self.out + self.n * self.d ≤ length s.now }
        requires j_lt_n { j < self.n }
        ensures { result.0 ≡ word s.now (self.out + (self.n * slot + j)) }
    {
        let m = matching(s, self.out, self.n, slot);
        EdgeIndex(m[j])
    }

    // Pair `j` of matching `slot` has this slot, too: a new first link, which leads to the pair's lower slots. The word that held its
    // number holds the next link from now on.
    #[tactic(auto, using(crate::proofs::StepLaws::push_is))]
    fn push_slot(self, s: &mut [u32], slot: usize, j: usize)
        requires slot_lt_d { slot < self.d }
        requires d_in_bounds { self.out + self.n * self.d ≤ length s.old }
        requires j_lt_n { j < self.n }
        ensures { s.new ≡ pushed self.out self.links slot (self.n * slot + j) s.old }
    {
        let t = self.n * slot + j;
        let e = self.pair_in(s, slot, j);
        let next = self.first_link(s, e);
        put(s, self.out + t, next);
        self.set_first_link(s, e, slot * LINK + t);
    }

    // This slot for each pair of its matching.
    #[tactic(auto, using(crate::proofs::StepLaws::matching_pushed_more), unfolding(crate::specs::Steps::matching_pushed))]
    fn push_matching(self, s: &mut [u32], slot: usize)
        requires slot_lt_d { slot < self.d }
        requires d_in_bounds { self.out + self.n * self.d ≤ length s.old }
        ensures { s.new ≡ matching_pushed self.n self.out self.links slot self.n s.old }
    {
        for j in 0..self.n {
            self.push_slot(s, slot, j);
        }
    }

    // The matchings from the lowest slot up, so that each pair's highest slot comes to stand first.
    #[tactic(auto, using(crate::proofs::StepLaws::all_pushed_more), unfolding(crate::specs::Steps::all_pushed))]
    pub fn push_all(self, s: &mut [u32])
        requires { self.out + self.n * self.d ≤ length s.old }
        ensures { s.new ≡ all_pushed self.n self.out self.links self.d s.old }
    {
        for slot in 0..self.d {
            self.push_matching(s, slot);
        }
    }
}
