// The split of a graph of degree 2; `two_` in a name says that it is for that degree. Its pairs of 2 copies go to both halves. In
// the rest every party is in two pairs or none, so that the rest falls into circuits, closed rounds that come to a party once,
// and no stack is needed: from each party in number order that has not been visited, the circuit begins with the party's last
// pair, goes on at each party by the other pair, and its pairs go to the first half and the second in turn. That is the cycle
// which `euler_cycles` writes down: it begins with the first pair and writes from the end.
//
// Ported from rustworkx-core, `rbmg_split_into_two` in bipartite_coloring.rs (Apache License 2.0, see NOTICE).
#![tactic(auto)]

ghost use Rattle.std.specs.Prelude.{◌≡◌, ◌+◌, ◌*◌, ◌<◌, ◌≤◌, length};
ghost use Rattle.words.specs.Words.{word_limit};
ghost use Rattle.words.specs.Sides.{offset_of};

use euler::{StoredGraph, head, many, push};
use multigraph::end_of;
use words::{EdgeIndex, NodeIndex, Side, other_half, set_word, word_at};

mod copies; // copies.rt: the copies of a graph, by which its degree is told

pub use copies::copies_sum;

// Where the words of such a split lie: the graph, both halves, two words for each party, and the odd pairs' numbers. Each is
// small enough that sums of them are numbers.
// The half-edge 2·e stands at the first end of the pair number e, and 2·e + 1 at its second end, which stand in the table at
// ends + 2·e and ends + 2·e + 1. A party's words, at b + 2·v: its last half-edge plus 1, or 0 where it has none or was visited;
// and the sum of its half-edges, cut to 32 bits, so that of its two the one gives the other.
#[derive(Clone, Copy)]
pub struct Two {
    pub graph: StoredGraph,
    pub first: usize,
    pub second: usize,
    pub b: usize,
    pub notes: usize,
    pub ghost first_small: { first < word_limit },
    pub ghost second_small: { second < word_limit },
    pub ghost marks_small: { b < word_limit },
    pub ghost notes_small: { notes < word_limit },
}

// How many entries of 2 copies, and how many of one, have been sifted out.
#[derive(Clone, Copy)]
pub struct Sifted {
    pub even: usize,
    pub odd: usize,
}

impl Two {
    ghost use Rattle.circuits.specs.Model.{two_start_m, two_sift_m, two_sift_all_m, two_note_m, two_fill_m};
    ghost use Rattle.circuits.specs.Model.{two_step_m, two_circuit_m, two_from_m, two_walk_m, split_two_m};
    ghost use Rattle.circuits.specs.Bounds.{TwoSifts, TwoSiftsAll, TwoNotes, TwoFills, TwoSteps, TwoCircuits};
    ghost use Rattle.circuits.specs.Bounds.{TwoFroms, TwoWalks, TwoSplits};

    // No party has a half-edge yet.
    #[tactic(auto, unfolding(crate::specs::Model::two_start_m))]
    fn two_start(self, s: &mut [u32])
        requires { self.b + 2 * self.graph.parties ≤ length s.old }
        ensures { s.new ≡ two_start_m self self.graph.parties s.old }
    {
        for v in 0..self.graph.parties {
            set_word(s, self.b + 2 * v, 0);
            set_word(s, self.b + 2 * v + 1, 0);
        }
    }

    // Entry i: of 2 copies each half gets one, and of one copy the pair is noted. Both are written in any case; what doesn't count is
    // written over by the next.
    #[tactic(auto, unfolding(crate::specs::Model::two_sift_m))]
    fn two_sift(self, s: &mut [u32], i: usize, n: Sifted) -> Sifted
        requires { TwoSifts self s.old n i }
        ensures { record { words = s.new; sifted = result } ≡ two_sift_m self (record { words = s.old; sifted = n }) i }
    {
        let e = self.graph.number(s, i);
        let c = self.graph.copies(s, i);
        push(s, self.first, n.even, e, 1);
        push(s, self.second, n.even, e, 1);
        set_word(s, self.notes + n.odd, e);
        let more = many(c);
        Sifted {
            even: n.even + more,
            odd: n.odd + c % 2,
        }
    }

    // All m entries, in order.
    #[tactic(auto, unfolding(crate::specs::Model::two_sift_all_m, crate::specs::Model::two_sift_m))]
    fn two_sift_all(self, s: &mut [u32]) -> Sifted
        requires { TwoSiftsAll self self.graph.m s.old }
        ensures { (record { words = s.new; sifted = result } ≡ two_sift_all_m self self.graph.m s.old) × (result.even ≤ self.graph.m) × (result.odd ≤ self.graph.m) }
    {
        let mut n = Sifted { even: 0, odd: 0 };
        for i in 0..self.graph.m {
            n = self.two_sift(s, i, n);
        }
        n
    }

    // The half-edge, on one side, of the pair noted at the place j becomes its party's last.
    #[tactic(auto, unfolding(crate::specs::Model::two_note_m))]
    fn two_note(self, s: &mut [u32], side: Side, j: usize)
        requires { TwoNotes self (offset_of side) s.old j }
        ensures { s.new ≡ two_note_m self (offset_of side) s.old j }
    {
        let e = word_at(s, self.notes + j);
        let p = end_of(s, self.graph.ends, side, EdgeIndex::new(e));
        let v = p.index();
        let y = 2 * e + side.offset();
        let sum = word_at(s, self.b + 2 * v + 1);
        set_word(s, self.b + 2 * v, y + 1);
        set_word(s, self.b + 2 * v + 1, sum + y);
    }

    // From the newest of the noted pairs down.
    #[tactic(auto, unfolding(crate::specs::Model::two_fill_m))]
    fn two_fill(self, s: &mut [u32], side: Side, odd: usize)
        requires { TwoFills self (offset_of side) odd s.old }
        ensures { s.new ≡ two_fill_m self (offset_of side) odd s.old }
    {
        for k in (0..odd).rev() {
            self.two_note(s, side, k);
        }
    }

    // The pair of the half-edge y goes to the half h. The party to which y leads is visited, and its other half-edge is next.
    #[tactic(auto, unfolding(crate::specs::Model::two_step_m))]
    fn two_step(self, s: &mut [u32], h: usize, at: usize, y: usize) -> usize
        requires y_bound { y < word_limit }
        requires steps { TwoSteps self h s.old at y }
        ensures { (record { words = s.new; number = result } ≡ two_step_m self h s.old at y) × (result < word_limit) }
    {
        push(s, h, at, y / 2, 1);
        let other = other_half(y);
        let p = end_of(
            s,
            self.graph.ends,
            Side::of_half_edge(other),
            EdgeIndex::new(y / 2),
        );
        let v = p.index();
        let sum = word_at(s, self.b + 2 * v + 1);
        set_word(s, self.b + 2 * v, 0);
        (sum as u32).wrapping_sub(other as u32) as usize
    }

    // The circuit that begins with the half-edge y0: its pairs go to the first half and the second in turn.
    #[tactic(auto, using(crate::proofs::ModelLaws::two_circuit_none))]
    fn two_circuit(self, s: &mut [u32], at: usize, y0: usize) -> usize
        requires y0_bound { y0 < word_limit }
        requires circuits { TwoCircuits self y0 self.graph.m s.old at y0 }
        ensures { record { words = s.new; number = result } ≡ two_circuit_m self y0 self.graph.m s.old at y0 }
    {
        let end = at + self.graph.m;
        let mut y = y0;
        for n in at..end {
            let x = self.two_step(s, self.first, n, y);
            y = self.two_step(s, self.second, n, x);
            if y == y0 {
                return n + 1;
            }
        }
        end
    }

    // The circuit from the party w, unless it has no pairs or was visited.
    #[tactic(auto, unfolding(crate::specs::Model::two_from_m))]
    fn two_from(self, s: &mut [u32], at: usize, w: NodeIndex) -> usize
        requires { TwoFroms self self.graph.m (record { words = s.old; number = at }) w.0 }
        ensures { record { words = s.new; number = result } ≡ two_from_m self self.graph.m (record { words = s.old; number = at }) w.0 }
    {
        match word_at(s, self.b + 2 * w.index()).checked_sub(1) {
            Some(y) => self.two_circuit(s, at, y),
            None => at,
        }
    }

    // The circuits from all parties, in number order.
    #[tactic(auto, unfolding(crate::specs::Model::two_walk_m))]
    fn two_walk(self, s: &mut [u32], even: usize) -> usize
        requires { TwoWalks self self.graph.m self.graph.parties (record { words = s.old; number = even }) }
        ensures { record { words = s.new; number = result } ≡ two_walk_m self self.graph.m self.graph.parties (record { words = s.old; number = even }) }
    {
        let mut n = even;
        for v in 0..self.graph.parties {
            n = self.two_from(s, n, NodeIndex::new(v));
        }
        n
    }

    // Both halves of a graph of degree 2.
    #[tactic(auto, unfolding(crate::specs::Model::split_two_m))]
    pub fn split_two(self, s: &mut [u32])
        requires { TwoSplits self self.graph.m self.graph.parties s.old }
        ensures { s.new ≡ split_two_m self self.graph.m self.graph.parties s.old }
    {
        self.two_start(s);
        let t = self.two_sift_all(s);
        self.two_fill(s, Side::First, t.odd);
        self.two_fill(s, Side::Second, t.odd);
        let n = self.two_walk(s, t.even);
        head(s, self.first, n);
        head(s, self.second, n);
    }
}
