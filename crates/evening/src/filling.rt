// Evening out: module 8, "from the first left and first right party below D, the smaller shortfall is added as copies, moving on when
// a party is full". A party's degree stands in its counter of the rows: at first that is how many half-edges it has.
ghost use Rattle.std.specs.Prelude.{◌≡◌, ◌<◌};
ghost use Rattle.words.specs.Words.{word_limit};
ghost use Rattle.evening.specs.Contract.{CanEven, EvenedOut};
ghost use Rattle.list_pairs.specs.Adding.{HasPlace};
ghost use Rattle.evening.specs.Filling.{FillSmall, PairFound, Filled, StepTaken};

use list_pairs::Bases;
use list_pairs::ends::joins;
use list_pairs::rows::RowBases;
use multigraph::pair_at;
use words::{EdgeIndex, NodeIndex, clear, get, put};

// How many parties have been passed on the left and on the right: the next ones are at these places of their sides.
#[derive(Clone, Copy)]
struct Passed {
    l: usize,
    r: usize,
}

// Where evening out works: on `n` parties a side, whose half-edges stand in `rows`. All these numbers are small.
#[derive(Clone, Copy)]
struct Filling {
    at: Bases,
    rows: RowBases,
    n: usize,
    ghost small: { FillSmall at rows },
    ghost n_small: { n < word_limit },
}

impl Filling {
    // The number of the pair with the ends `l` and `r`: that of an appointment in the row of `l` with these ends, or the next number
    // if there is none. A row has at most d half-edges and a party is filled at most once, so this is linear in all. All d words of
    // the row are looked at: the counter is the degree by now, and doesn't say any more how many half-edges the row has.
    fn find_pair(self, s: &[u32], list: &[u16], l: NodeIndex, r: NodeIndex) -> EdgeIndex
        ensures { PairFound list.now self.at self.rows l.0 r.0 s.now result.0 }
    {
        let v = l.index();
        let w = r.index();
        let from = self.rows.rows + self.rows.d * v;
        for t in 0..self.rows.d {
            let i = get(s, from + t) / 2;
            if joins(list, i, v, w) {
                return pair_at(s, self.at.apair + i);
            }
        }
        EdgeIndex::new(get(s, self.at.g + 1))
    }

    // Adds the smaller shortfall of `l` and `r` as copies of their pair, and to both degrees.
    fn fill(self, s: &mut [u32], list: &[u16], l: NodeIndex, r: NodeIndex)
        requires { HasPlace self.at.ends self.at.g s.old }
        ensures { Filled list.now self.at self.rows l.0 r.0 s.old s.new }
    {
        let v = l.index();
        let w = r.index();
        let dl = get(s, self.rows.counts + v);
        let dr = get(s, self.rows.counts + w);
        let d = self.rows.d;
        let more = d.saturating_sub(dl).min(d.saturating_sub(dr));
        let e = self.find_pair(s, list, l, r);
        self.at.add_pair(s, e, l, r, more);
        put(s, self.rows.counts + v, dl + more);
        put(s, self.rows.counts + w, dr + more);
    }

    // One step: a full party is passed, or the smaller shortfall of two short ones is added. After the last left party nothing
    // happens.
    fn even_step(self, s: &mut [u32], list: &[u16], passed: Passed) -> Passed
        requires { passed.l < self.n → HasPlace self.at.ends self.at.g s.old }
        ensures { StepTaken list.now self.at self.rows self.n s.old s.new passed.l passed.r result.l result.r }
    {
        if passed.l >= self.n {
            return passed;
        }
        let l = get(s, self.at.left + passed.l);
        let dl = get(s, self.rows.counts + l);
        if dl == self.rows.d {
            return Passed {
                l: passed.l + 1,
                ..passed
            };
        }
        if passed.r >= self.n {
            return passed;
        }
        let r = get(s, self.at.right + passed.r);
        let dr = get(s, self.rows.counts + r);
        if dr == self.rows.d {
            return Passed {
                r: passed.r + 1,
                ..passed
            };
        }
        self.fill(s, list, NodeIndex::new(l), NodeIndex::new(r));
        passed
    }
}

// The same as `even_out`, where the words from `u` on are free. The rows are cleared for the same reason as the map in `pairs_at`:
// `find_pair` looks at all words of a row.
pub(crate) fn even_at(s: &mut [u32], u: usize, list: &[u16], d: usize, n: usize, at: Bases)
    requires { CanEven list.now d n at u s.old }
    ensures { EvenedOut list.now d n at u s.old u s.new }
{
    let rows = RowBases {
        parties: n + n,
        d,
        counts: u,
        rows: u + (n + n),
    };
    clear(s, rows.rows, d * (n + n));
    rows.fill_rows(s, list);
    let filling = Filling { at, rows, n };
    let mut passed = Passed { l: 0, r: 0 };
    for _ in 0..2 * (n + n) {
        passed = filling.even_step(s, list, passed);
    }
}
