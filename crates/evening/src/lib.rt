// Module 8 of document 01, `bipartite_edge_color_given_partition`, over scratch words, after the pairs of the list: new parties on the
// shorter side, and evening out. Here stand the public steps; the one that needs words takes them from the mark and calls `even_at`,
// which goes by numbers.
//
// Ported from rustworkx-core, the first half of `bipartite_edge_color_given_partition` in bipartite_coloring.rs (Apache License 2.0, see NOTICE).
#![tactic(auto)]

ghost use Rattle.std.specs.Prelude.{◌≡◌, ◌+◌, ◌*◌, ◌≤◌};
ghost use Rattle.evening.specs.Contract.{CanPad, SidesPadded, CanEven, EvenedOut};

use crate::filling::even_at;
use crate::sides::pad_side;
use list_pairs::Bases;
use mark::Mark;

mod filling; // evening out
mod sides; // new parties on the shorter side

// New parties, numbered on from `p`, are appended to the shorter of the two sides until they are even. Gives how many parties
// each side then has.
pub fn pad_sides(s: &mut [u32], p: usize, left: usize, l: usize, right: usize, r: usize) -> usize
    requires { CanPad p left l right r s.old }
    ensures { SidesPadded p left l right r result s.old s.new }
{
    let n = l.max(r);
    pad_side(s, left, l, n, p);
    pad_side(s, right, r, n, p);
    n
}

// From the first left and the first right party below `d`, the smaller shortfall is added as copies, moving on when a party is
// full, until every party has degree `d`. Takes the degrees and the rows, and gives them back.
pub fn even_out(s: &mut [u32], m: &mut Mark, list: &[u16], d: usize, n: usize, at: Bases)
    requires { CanEven list.now d n at m.old.taken s.old }
    ensures { EvenedOut list.now d n at m.old.taken s.old m.new.taken s.new × (m.new ≡ m.old) }
{
    let k = n + n + d * (n + n);
    let u = m.take(k);
    even_at(s, u, list, d, n, at);
    m.give_back(u);
}
