// The numbers of the pairs on the diagonal, which the search for a matching (module 5 of document 01) adds copies to. Here stands the
// public step, which takes its words from the mark and calls `diagonal_at`, which goes by numbers.
//
// Ported from rustworkx-core, the first half of `bipartite_edge_color_given_partition` in bipartite_coloring.rs (Apache License 2.0, see NOTICE).
#![tactic(auto)]

ghost use Rattle.std.specs.Prelude.{◌≡◌, ◌+◌, ◌*◌, ◌≤◌};
ghost use Rattle.diagonal.specs.Contract.{CanDiagonal, DiagonalSet};

use crate::diagonal_places::diagonal_at;
use list_pairs::Bases;
use mark::Mark;

mod diagonal_places; // the diagonal: the pairs of left i and right i

// The number of the pair of left `i` and right `i`, for each i: its own if the graph has it, else one after those of all pairs,
// in a row of its own. Takes a word for each party, and gives it back.
pub fn diagonal(s: &mut [u32], m: &mut Mark, n: usize, at: Bases, diag: usize)
    requires { CanDiagonal n at diag m.old.taken s.old }
    ensures { DiagonalSet n at diag m.old.taken s.old m.new.taken s.new × (m.new ≡ m.old) }
{
    let k = n + n;
    let u = m.take(k);
    diagonal_at(s, u, n, at, diag);
    m.give_back(u);
}
