// Copies are added to a pair, or the pair is new: `add_edge` of module 1, in a graph in which the entry at place i has number i, so
// that a pair's number is its place. The graph at g: a header, how many pairs it has, and for each its number and its copies.
ghost use Rattle.std.specs.Prelude.{◌≡◌, ◌+◌, ◌*◌, ◌<◌, length};
ghost use Rattle.list_pairs.specs.Adding.{pushed, HasPlace, AddsPair};

use crate::Bases;
use words::{EdgeIndex, NodeIndex, set_word, word_at};

impl Bases {
    // The new pair `e` with the ends `l` and `r`, the last one of the graph, which has as many as `e` says: its row in the table of
    // ends, its entry, and one pair more.
    fn push_pair(self, s: &mut [u32], e: EdgeIndex, l: NodeIndex, r: NodeIndex, copies: usize)
        requires { (self.ends + 2 * e.0 + 1 < length s.old) × (self.g + 3 + 2 * e.0 < length s.old) }
        ensures { s.new ≡ pushed self.ends self.g e.0 l.0 r.0 copies s.old }
    {
        let m = e.index();
        set_word(s, self.ends + 2 * m, l.index());
        set_word(s, self.ends + 2 * m + 1, r.index());
        set_word(s, self.g + 2 + 2 * m, m);
        set_word(s, self.g + 3 + 2 * m, copies);
        set_word(s, self.g + 1, m + 1);
    }

    // `add_edge` where the pair's number is known: pair `e` gets the copies, or is new if it is the next number.
    pub fn add_pair(self, s: &mut [u32], e: EdgeIndex, l: NodeIndex, r: NodeIndex, copies: usize)
        requires { HasPlace self.ends self.g s.old }
        ensures { AddsPair self.ends self.g e.0 l.0 r.0 copies s.old s.new }
    {
        let i = e.index();
        let m = word_at(s, self.g + 1);
        if i < m {
            let c = word_at(s, self.g + 3 + 2 * i);
            set_word(s, self.g + 3 + 2 * i, c.wrapping_add(copies));
            return;
        }
        self.push_pair(s, EdgeIndex::new(m), l, r, copies);
    }
}
