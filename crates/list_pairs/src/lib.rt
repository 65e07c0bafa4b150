// The pairs of a list over scratch words: module 8 of document 01, `bipartite_edge_color_given_partition`, begins with them. The
// public step stands in from_list.rt, since a contract that speaks of `Bases` can't stand beside it. The rows of half-edges, the test of
// two ends and adding a pair are used again by `evening`, the test by `diagonal` too.
//
// In the graph built here the entry at place i has number i, so a pair's number is its place.
//
// Ported from rustworkx-core, the first half of `bipartite_edge_color_given_partition` in bipartite_coloring.rs (Apache License 2.0, see NOTICE).
#![tactic(auto)]

ghost use Rattle.std.specs.Prelude.{◌<◌};
ghost use Rattle.words.specs.Words.{word_limit};

pub use crate::from_list::pairs_from_list;

pub mod adding; // copies are added to a pair, or the pair is new
pub mod ends; // has an appointment or a pair these two ends?
mod from_list; // the pairs of the list: the public step
mod representatives; // for each appointment an earlier one with its ends
pub mod rows; // each party's half-edges side by side

// Where things lie: the parties of the left and of the right side; the table of ends, two words for each pair; the number of each
// appointment's pair; the graph. A contract that speaks of them calls the whole `at`. The table and the graph, whose places each step
// here computes with, stand at small numbers.
#[derive(Clone, Copy)]
pub struct Bases {
    pub left: usize,
    pub right: usize,
    pub ends: usize,
    pub apair: usize,
    pub g: usize,
    pub ghost ends_small: { ends < word_limit },
    pub ghost g_small: { g < word_limit },
}
