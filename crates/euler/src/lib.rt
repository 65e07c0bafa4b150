// Modules 3 and 4 of document 01, `euler_cycles` and `rbmg_split_into_two`: their meaning and its laws, on which the crates `rings`,
// `walking`, `circuits` and `splitting` stand. The code here is what both ways to split share: how a half is written, which is a
// graph, its base and the number of its entries and then the entries, two words each.
//
// Ported from rustworkx-core, `rbmg_split_into_two` in bipartite_coloring.rs (Apache License 2.0, see NOTICE).
#![tactic(auto)]

ghost use Rattle.std.specs.Prelude.{◌≡◌, ℕ, ◌+◌, ◌*◌, ◌<◌, ◌≤◌, length};
ghost use Rattle.words.specs.Words.{word_limit};
ghost use Rattle.euler.specs.Entries.{many_m, push_m};

pub use multigraph::head;
use words::set_word;

mod stored; // stored.rt: graphs as they lie in words

pub use stored::{RegularGraph, StoredGraph};

// One for an entry of 2 copies or more.
pub fn many(copies: usize) -> usize
    ensures { (result ≡ many_m copies) × (result ≤ 1) }
{
    usize::from(copies >= 2)
}

// Writes an entry of the graph at `h`, at its place `at`.
pub fn push(s: &mut [u32], h: usize, at: usize, e: usize, copies: usize)
    requires { h + 3 + 2 * at < length s.old }
    ensures { s.new ≡ push_m h s.old at e copies }
{
    set_word(s, h + 2 + 2 * at, e);
    set_word(s, h + 3 + 2 * at, copies);
}
