// Representatives: for each appointment one that is not later and has the same ends, and an earlier one if there is any.
// They are found in linear time: the rows are gone through one after the other, and a map from parties to appointments, at
// `map`, has for each other end met in the row the first appointment with it. The map isn't cleared between two rows: what stands in
// it is looked at. The representative of appointment i goes to `apair + i`, where later its pair's number will stand.
ghost use Rattle.std.specs.Prelude.{◌≡◌, ◌<◌};
ghost use Rattle.words.specs.Words.{word_limit};
ghost use Rattle.list_pairs.specs.Representatives.{Finds, RepFound, RepsFit, RowDone, RepsDone};

use crate::ends::earlier;
use crate::rows::RowBases;
use words::{NodeIndex, other_half, set_word, word_at};

// Where the search for representatives works: the rows that are gone through, the map, and where the representatives go.
#[derive(Clone, Copy)]
pub(crate) struct Reps {
    pub(crate) rows: RowBases,
    pub(crate) map: usize,
    pub(crate) apair: usize,
    ghost map_small: { map < word_limit },
    ghost apair_small: { apair < word_limit },
}

impl Reps {
    // The representative of the appointment of half-edge `h`: what the map has for the other end, if that is an earlier appointment with
    // its ends; else itself, and the map has it from now on.
    fn find_rep(self, s: &mut [u32], list: &[u16], h: usize)
        requires { Finds list.now self.map self.apair h s.old }
        ensures { RepFound list.now self.map self.apair h s.old s.new }
    {
        let i = h / 2;
        let v = word_at(list, h);
        let f = other_half(h);
        let w = word_at(list, f);
        let j = word_at(s, self.map + w);
        if earlier(list, j, i, v, w) {
            set_word(s, self.apair + i, j);
            return;
        }
        set_word(s, self.apair + i, i);
        set_word(s, self.map + w, i);
    }

    // The representatives of the appointments of party `w`, whose row is gone through.
    fn rep_row(self, s: &mut [u32], list: &[u16], w: NodeIndex)
        requires reps_fit { RepsFit list.now self.rows self.map self.apair s.old }
        requires w_lt_parties { w.0 < self.rows.parties }
        ensures { RowDone list.now self.rows.parties self.map self.apair w.0 s.old s.new }
    {
        let v = w.index();
        let n = word_at(s, self.rows.counts + v);
        let from = self.rows.rows + self.rows.d * v;
        for t in 0..n {
            let h = word_at(s, from + t);
            self.find_rep(s, list, h);
        }
    }

    // The representatives of all appointments.
    pub(crate) fn rep_rows(self, s: &mut [u32], list: &[u16])
        requires { RepsFit list.now self.rows self.map self.apair s.old }
        ensures { RepsDone list.now self.rows.parties self.map self.apair self.rows.parties s.old s.new }
    {
        for v in 0..self.rows.parties {
            self.rep_row(s, list, NodeIndex::new(v));
        }
    }
}
