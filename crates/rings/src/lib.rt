// The rings of a split: each party's half-edges in its pairs' order (module 1 of document 01), so that a walk finds the party's
// first remaining pair at once, and takes it out at both its ends.
//
// Ported from rustworkx-core, `euler_cycles` in bipartite_coloring.rs (Apache License 2.0, see NOTICE).
#![tactic(auto)]

ghost use Rattle.std.specs.Prelude.{◌≡◌, ◌<◌, ◌≤◌};
ghost use Rattle.words.specs.Words.{word_limit};
ghost use Rattle.words.specs.Sides.{offset_of};

use euler::StoredGraph;
use multigraph::end_of;
use words::{EdgeIndex, NodeIndex, Side, set_word, word_at};

// Where a split's words lie: the graph, the rings, the number of party 0's node, and the columns. Each is small enough that sums
// of them are numbers.
// Each party has a ring of nodes, which are its half-edges in its pairs' order and its own node, the number top + v. Node x has two
// words, at b + 2·x: the node after it and the node before it. Entry i has eight words, at b + 8·i: the node 4·i, its half-edge at
// its first end; 2 its mark; 3 its second end; the node 4·i + 2, its half-edge at its second end; 7 its first end. So the party
// to which the half-edge x leads stands at b + 2·x + 3. Columns, at col + 2·j: 0 stack, and before the walk the entries of odd
// copies; 1 places written.
#[derive(Clone, Copy)]
pub struct Rings {
    pub graph: StoredGraph,
    pub b: usize,
    pub top: usize,
    pub col: usize,
    pub ghost rings_small: { b < word_limit },
    pub ghost own_nodes_small: { top < 8589934592 },
    pub ghost columns_small: { col < word_limit },
}

impl Rings {
    ghost use Rattle.rings.specs.Model.{append_m, start_ring_m, start_m, sift_m, sift_all_m, ring_end_m, ends_m, fill_m};
    ghost use Rattle.rings.specs.Bounds.{Appends, Sifts, SiftsAll, RingsEnd, FillsEnds, Fills};

    // An empty ring for the party w.
    fn start_ring(self, s: &mut [u32], w: NodeIndex)
        ensures { s.new ≡ start_ring_m self s.old w.0 }
    {
        let z = self.top + w.index();
        words::put(s, self.b + 2 * z, z);
        words::put(s, self.b + 2 * z + 1, z);
    }

    // An empty ring for every party.
    #[tactic(auto, unfolding(crate::specs::Model::start_m))]
    fn start_rings(self, s: &mut [u32])
        ensures { s.new ≡ start_m self self.graph.parties s.old }
    {
        for v in 0..self.graph.parties {
            self.start_ring(s, NodeIndex::new(v));
        }
    }

    // The half-edge x becomes the last of the ring of the party w.
    #[tactic(auto, unfolding(crate::specs::Model::append_m))]
    fn append(self, s: &mut [u32], w: NodeIndex, x: usize)
        requires { Appends self s.old w.0 x }
        ensures { s.new ≡ append_m self s.old w.0 x }
    {
        let z = self.top + w.index();
        let p = word_at(s, self.b + 2 * z + 1);
        set_word(s, self.b + 2 * p, x);
        set_word(s, self.b + 2 * x + 1, p);
        set_word(s, self.b + 2 * x, z);
        set_word(s, self.b + 2 * z + 1, x);
    }

    // Entry i is noted in the stack's column, which the walk doesn't use yet, and its mark is cleared. The place counts on only
    // past an entry of odd copies, so that the next entry writes over the note of an even one: there is no branch on the parity.
    #[tactic(auto, unfolding(crate::specs::Model::sift_m))]
    fn sift(self, s: &mut [u32], i: usize, odd: usize) -> usize
        requires { Sifts self s.old i odd }
        ensures { record { words = s.new; count = result } ≡ sift_m self (record { words = s.old; count = odd }) i }
    {
        let c = self.graph.copies(s, i);
        set_word(s, self.b + 8 * i + 2, 0);
        set_word(s, self.col + 2 * odd, i);
        odd + c % 2
    }

    // The entries of odd copies, oldest first; how many they are is returned.
    #[tactic(auto, unfolding(crate::specs::Model::sift_all_m, crate::specs::Model::sift_m))]
    fn sift_all(self, s: &mut [u32]) -> usize
        requires { SiftsAll self self.graph.m s.old }
        ensures { (record { words = s.new; count = result } ≡ sift_all_m self self.graph.m s.old) × (result ≤ self.graph.m) }
    {
        let mut odd = 0;
        for i in 0..self.graph.m {
            odd = self.sift(s, i, odd);
        }
        odd
    }

    // The entry noted at the place j gets its half-edge in the ring of its end on one side.
    #[tactic(auto, unfolding(crate::specs::Model::ring_end_m))]
    fn ring_end(self, s: &mut [u32], side: Side, j: usize)
        requires { RingsEnd self (offset_of side) s.old j }
        ensures { s.new ≡ ring_end_m self (offset_of side) s.old j }
    {
        let i = word_at(s, self.col + 2 * j);
        let e = self.graph.number(s, i);
        let p = end_of(s, self.graph.ends, side, EdgeIndex::new(e));
        let d = side.offset();
        set_word(s, self.b + (7 - 4 * d) + 8 * i, p.index());
        self.append(s, p, 4 * i + 2 * d);
    }

    // From the newest of the noted entries down.
    #[tactic(auto, unfolding(crate::specs::Model::ends_m))]
    fn fill_ends(self, s: &mut [u32], side: Side, odd: usize)
        requires { FillsEnds self (offset_of side) odd s.old }
        ensures { s.new ≡ ends_m self (offset_of side) odd s.old }
    {
        for k in (0..odd).rev() {
            self.ring_end(s, side, k);
        }
    }

    // The rings of all parties: pairs where the party is first end, newest first, then those where it is second end.
    #[tactic(auto, unfolding(crate::specs::Model::fill_m))]
    pub fn fill_rings(self, s: &mut [u32])
        requires { Fills self self.graph.m self.graph.parties s.old }
        ensures { s.new ≡ fill_m self self.graph.m self.graph.parties s.old }
    {
        self.start_rings(s);
        let odd = self.sift_all(s);
        self.fill_ends(s, Side::First, odd);
        self.fill_ends(s, Side::Second, odd);
    }
}
