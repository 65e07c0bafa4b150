// Rows of half-edges. A position `h` of the flat list is a half-edge of the party that stands there: appointment i has the half-edges
// 2·i and 2·i + 1. A party's half-edges lie side by side in its row, in list order, and a counter says how many they are.
ghost use Rattle.std.specs.Prelude.{◌≡◌, length};

use words::{NodeIndex, append, clear};

// Where the rows lie: how many parties have one; the words of each, d; where the counters stand, one for each party; and where the
// rows stand, that of party 0 first.
#[derive(Clone, Copy)]
pub struct RowBases {
    pub parties: usize,
    pub d: usize,
    pub counts: usize,
    pub rows: usize,
}

impl RowBases {
    ghost use Rattle.list_pairs.specs.Rows.{Pushes, row_pushed, RowsFit, RowsFilled};

    // Half-edge `h` goes to the end of the row of party `w`.
    #[tactic(auto, unfolding(words::specs::Appending::appended))]
    fn push_row(self, s: &mut [u32], w: NodeIndex, h: usize)
        requires { Pushes self w.0 s.old }
        ensures { s.new ≡ row_pushed self w.0 h s.old }
    {
        let v = w.index();
        append(s, self.counts + v, self.rows + self.d * v, h);
    }

    // Each half-edge of the list goes to the row of its party.
    pub fn fill_rows(self, s: &mut [u32], list: &[u16])
        requires { RowsFit list.now self s.old }
        ensures { RowsFilled list.now self (length list.now) s.old s.new }
    {
        clear(s, self.counts, self.parties);
        for (h, v) in list.iter().enumerate() {
            self.push_row(s, NodeIndex::new(usize::from(*v)), h);
        }
    }
}
