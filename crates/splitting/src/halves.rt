// A half of a split, written entry by entry: first the pairs of 2 copies or more, with half their copies and one more where the
// walk has marked them for this half, then those of one copy, as the walk has dealt them.
ghost use Rattle.std.specs.Prelude.{◌≡◌, ℕ, ◌+◌, ◌*◌, ◌-◌, ◌/◌, ◌<◌, ◌≤◌};
ghost use Rattle.words.specs.Sides.{offset_of};
ghost use Rattle.words.specs.Words.{word_limit};
ghost use Rattle.splitting.specs.Model.{more_m, entry_m, entries_m, single_m, singles_m, half_m};
ghost use Rattle.splitting.specs.Bounds.{EntryFits, EntriesFit, SingleFits, SinglesFit, HalfFits};

use euler::{head, many, push};
use rings::Rings;
use words::{Side, word_at};

// Where a half is written, and which of the two it is: the places of the walk whose parity is its side's offset are dealt to it.
#[derive(Clone, Copy)]
pub(crate) struct Half {
    pub(crate) h: usize,
    pub(crate) side: Side,
    ghost h_small: { h < word_limit },
}

impl Half {
    // One more copy where the entry is marked for this half.
    fn more(self, mark: usize) -> usize
        ensures { (result ≡ more_m mark (offset_of self.side)) × (result ≤ 1) }
    {
        usize::from(mark == 2 + self.side.offset())
    }

    // Entry i is written with half its copies, and the place counts on only past an entry of 2 copies or more: the next writes over
    // what doesn't belong there, and nothing branches on the copies.
    #[tactic(auto, unfolding(crate::specs::Model::entry_m))]
    fn half_entry(self, s: &mut [u32], l: Rings, at: usize, i: usize) -> usize
        requires { EntryFits l self.h s.old at i }
        ensures { record { words = s.new; count = result } ≡ entry_m l self.h (offset_of self.side) (record { words = s.old; count = at }) i }
    {
        let c = l.graph.copies(s, i);
        let e = l.graph.number(s, i);
        let mark = word_at(s, l.b + 8 * i + 2);
        let x = self.more(mark);
        push(s, self.h, at, e, c / 2 + x);
        let n = many(c);
        at + n
    }

    // The entries of 2 copies or more, in order: half of them.
    #[tactic(auto, unfolding(crate::specs::Model::entries_m, crate::specs::Model::entry_m))]
    fn half_entries(self, s: &mut [u32], l: Rings) -> usize
        requires { EntriesFit l self.h l.graph.m s.old }
        ensures { (record { words = s.new; count = result } ≡ entries_m l self.h (offset_of self.side) l.graph.m s.old) × (result ≤ l.graph.m) }
    {
        let mut at = 0;
        for i in 0..l.graph.m {
            at = self.half_entry(s, l, at, i);
        }
        at
    }

    // The entry written down at the place j of the walk, if it has one copy; it goes as in `half_entry`.
    #[tactic(auto, unfolding(crate::specs::Model::single_m))]
    fn half_single(self, s: &mut [u32], l: Rings, at: usize, j: usize) -> usize
        requires { SingleFits l self.h s.old at j }
        ensures { record { words = s.new; count = result } ≡ single_m l self.h (record { words = s.old; count = at }) j }
    {
        let i = word_at(s, l.col + 2 * j + 1);
        let c = l.graph.copies(s, i);
        let e = l.graph.number(s, i);
        push(s, self.h, at, e, 1);
        let n = many(c);
        at + (1 - n)
    }

    // Then the written places of this parity whose entry has one copy, in the order of writing.
    #[tactic(auto, unfolding(crate::specs::Model::singles_m, crate::specs::Model::single_m))]
    fn half_singles(self, s: &mut [u32], l: Rings, from: usize, written: usize) -> usize
        requires from_bound { from < word_limit }
        requires written_bound { written < 68719476736 }
        requires singles_fit { SinglesFit l self.h (offset_of self.side) ((written + 1 - (offset_of self.side)) / 2) (record { words = s.old; count = from }) }
        ensures { record { words = s.new; count = result } ≡ singles_m l self.h (offset_of self.side) ((written + 1 - (offset_of self.side)) / 2) (record { words = s.old; count = from }) }
    {
        let parity = self.side.offset();
        let mut at = from;
        for k in 0..(written + 1 - parity) / 2 {
            at = self.half_single(s, l, at, parity + 2 * k);
        }
        at
    }

    // One half: its entries of 2 copies or more, its entries of one copy, and its head.
    #[tactic(auto, unfolding(crate::specs::Model::half_m))]
    pub(crate) fn write(self, s: &mut [u32], l: Rings, written: usize)
        requires written_bound { written < 68719476736 }
        requires half_fits { HalfFits l self.h (offset_of self.side) l.graph.m written s.old }
        ensures { s.new ≡ half_m l self.h (offset_of self.side) l.graph.m written s.old }
    {
        let from = self.half_entries(s, l);
        let at = self.half_singles(s, l, from, written);
        head(s, self.h, at);
    }
}
