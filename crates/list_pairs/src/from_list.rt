// The pairs of the list, one appointment after the other: module 8, "pairs from the list".
ghost use Rattle.std.specs.Prelude.{◌≡◌, ◌+◌, ◌/◌, ◌<◌, length};
ghost use Rattle.list_pairs.specs.Contract.{CanPair, PairsMade};
ghost use Rattle.list_pairs.specs.FromList.{pair_of, Building, Built};

use crate::Bases;
use crate::representatives::Reps;
use crate::rows::RowBases;
use mark::Mark;
use multigraph::head;
use words::{EdgeIndex, NodeIndex, clear, set_word, word_at};

impl Bases {
    // The number of appointment `i`'s pair, for which its representative stands at `apair`: that of an earlier appointment, or the
    // next number.
    fn pair_of(self, s: &[u32], i: usize) -> EdgeIndex
        requires { (self.apair + i < length s.now) × (self.g + 1 < length s.now) }
        ensures { result.0 ≡ pair_of self.g self.apair i s.now }
    {
        let j = word_at(s, self.apair + i);
        if j < i {
            return EdgeIndex::new(word_at(s, self.apair + j));
        }
        EdgeIndex::new(word_at(s, self.g + 1))
    }

    // One copy for each appointment, in list order: its pair gets it, and the pair's number takes the place of the representative.
    fn add_appointments(self, s: &mut [u32], list: &[u16])
        requires { Building list.now self 0 s.old }
        ensures { Built list.now self (length list.now / 2) s.old s.new }
    {
        for (i, &[first, second]) in list.as_chunks::<2>().0.iter().enumerate() {
            let e = self.pair_of(s, i);
            let l = NodeIndex::new(usize::from(first));
            let r = NodeIndex::new(usize::from(second));
            self.add_pair(s, e, l, r, 1);
            set_word(s, self.apair + i, e.index());
        }
    }

    // The same as `pairs_from_list`, where the words from `u` on are free. What the map holds at first makes no difference; it is
    // cleared so that no word is read before it is written, which a memory checker would report.
    fn pairs_at(self, s: &mut [u32], u: usize, list: &[u16], p: usize, d: usize)
        requires { CanPair list.now p d self u s.old }
        ensures { PairsMade list.now self u s.old u s.new }
    {
        let rows = RowBases {
            parties: p,
            d,
            counts: u,
            rows: u + p,
        };
        let map = rows.rows + d * p;
        clear(s, map, p);
        rows.fill_rows(s, list);
        let reps = Reps {
            rows,
            map,
            apair: self.apair,
        };
        reps.rep_rows(s, list);
        head(s, self.g, 0); // no pairs yet
        self.add_appointments(s, list);
    }
}

// The pairs of the list, one copy for each appointment, in list order: the table of their ends, the graph, and each
// appointment's pair. Takes the rows and the map, and gives them back.
pub fn pairs_from_list(s: &mut [u32], m: &mut Mark, list: &[u16], p: usize, d: usize, at: Bases)
    requires { CanPair list.now p d at m.old.taken s.old }
    ensures { PairsMade list.now at m.old.taken s.old m.new.taken s.new × (m.new ≡ m.old) }
{
    let n = p + d * p + p;
    let u = m.take(n);
    at.pairs_at(s, u, list, p, d);
    m.give_back(u);
}
