// `rbmg_find_perfect_matching` over scratch words, with the second search: module 5 of document 01.
//
// A search pushes its graph at the mark, splits it again and again above it, and copies the half that goes on down to its base.
//
// Ported from rustworkx-core, `rbmg_find_perfect_matching` in bipartite_coloring.rs (Apache License 2.0, see NOTICE).
#![tactic(auto)]

ghost use Rattle.std.specs.Prelude.{◌≡◌, ℕ, ◌+◌, ◌*◌, ◌-◌, ◌/◌, ◌^◌, ◌<◌, ◌≤◌, length};
ghost use Rattle.words.specs.Words.{word, word_limit};
ghost use Rattle.multigraph.specs.Stored.{graph_at};
ghost use Rattle.multigraph.specs.Places.{size, number, copies_of, AddsEdge};
ghost use Rattle.euler.specs.Entries.{push_m};
ghost use Rattle.perfect_matching.specs.Matching.{flagged_pairs};
ghost use Rattle.words.specs.PowersOfTwo.{log_up};
ghost use Rattle.matching.specs.Choosing.{flagged_by, flagged_entry, Whole, fewer, Chooses, Copies, Copying, CanCopy, InsideBoth, SideBySide, GoesOn};
ghost use Rattle.matching.specs.Searched.{AddsDiagonal, BuildsGraph, CanHalve, Halved, CanHalveAll, HalvedAll, CanSearch, SearchDone, SearchesDone, ReadsMatching, CanFind, MatchingFound};

use euler::RegularGraph;
use mark::Mark;
use multigraph::{MappedGraph, PairNumbers, head, pair_at};
use words::{EdgeIndex, get, put, word_at};

// Where the table of a regular graph lies: the ends, two words for each pair and then for left i with right i; the map of
// places; the numbers of the diagonal; and how many pairs there are. A number is flagged if it is not below `pairs`.
#[derive(Clone, Copy)]
pub struct Table {
    pub ends: usize,
    pub places: usize,
    pub diag: usize,
    pub pairs: usize,
}

// What a search counts of a graph: its flagged pairs, or the copies that these have.
#[derive(Clone, Copy)]
pub enum Count {
    FlaggedPairs,
    FlaggedCopies,
}

// The least power of two not below `m`.
#[tactic(auto, using(crate::proofs::Counts::next_power))]
pub fn next_power_of_two(m: usize) -> usize
    requires { m < word_limit }
    ensures { result ≡ 2 ^ log_up m }
{
    m.next_power_of_two()
}

// What entry `i` of a graph's own words counts: nothing if it isn't flagged, else 1, or its copies.
fn flagged_at(g: &[u32], pairs: usize, count: Count, i: usize) -> usize
    requires { 3 + 2 * i < length g.now }
    ensures { (result ≡ flagged_entry count g.now pairs 0 i) × (result < word_limit) }
{
    let e = word_at(g, 2 + 2 * i);
    if e < pairs {
        return 0;
    }
    match count {
        Count::FlaggedPairs => 1,
        Count::FlaggedCopies => word_at(g, 3 + 2 * i),
    }
}

// How many pairs of a graph are flagged, or how many copies these have. The slice holds the graph's own words.
#[tactic(auto, using(crate::proofs::Counts::flagged_sum, crate::proofs::Counts::flagged_more, crate::proofs::Counts::flagged_none))]
fn flagged(g: &[u32], pairs: usize, count: Count) -> usize
    requires { Whole g.now }
    ensures { (ends : ℕ) → result ≡ flagged_by count (graph_at g.now ends pairs 0) }
{
    let m = word_at(g, 1);
    let mut c = 0;
    for i in 0..m {
        c += flagged_at(g, pairs, count, i);
    }
    c
}

// The chooser: of two halves the one with fewer flagged, the first if equal.
pub fn fewer_flagged<'a>(
    first: &'a [u32],
    second: &'a [u32],
    pairs: usize,
    count: Count,
) -> &'a [u32]
    requires { Whole first.now × Whole second.now }
    ensures { (ends : ℕ) → result ≡ fewer count (graph_at first.now ends pairs 0) (graph_at second.now ends pairs 0) first.entry second.entry }
{
    let x = flagged(first, pairs, count);
    let y = flagged(second, pairs, count);
    if x <= y {
        return first;
    }
    second
}

// A copy of the graph at `from` to `to`, every pair's copies times `alpha`.
#[derive(Clone, Copy)]
struct GraphCopy {
    from: usize,
    to: usize,
    alpha: usize,
    ghost to_small: { to < word_limit },
}

impl GraphCopy {
    // Copies entry `i`.
    fn copy_entry(self, s: &mut [u32], i: usize)
        requires { InsideBoth self.from self.to (i + 1) s.old }
        ensures { s.new ≡ push_m self.to s.old i (number s.old self.from i) (self.alpha * copies_of s.old self.from i) }
    {
        let e = word_at(s, self.from + 2 + 2 * i);
        let c = word_at(s, self.from + 3 + 2 * i);
        euler::push(s, self.to, i, e, self.alpha.wrapping_mul(c));
    }

    // Copies `m` entries.
    #[tactic(auto, using(crate::proofs::CopyLaws::copying_more))]
    fn copy_entries(self, s: &mut [u32], m: usize)
        requires { InsideBoth self.from self.to m s.old }
        ensures { m ≡ size s.old self.from → CanCopy self.from self.to self.alpha s.old → Copying self.from self.to self.alpha m s.old s.new }
    {
        for i in 0..m {
            self.copy_entry(s, i);
        }
    }

    // Copies the graph.
    fn copy(self, s: &mut [u32])
        requires { InsideBoth self.from self.to (size s.old self.from) s.old }
        ensures { Copies self.from self.to self.alpha s.old s.new }
    {
        let m = word_at(s, self.from + 1);
        self.copy_entries(s, m);
        head(s, self.to, m);
    }
}

// Two halves side by side at `first`, each with so much room, and what decides between them.
#[derive(Clone, Copy)]
struct Halves {
    first: usize,
    room: usize,
    pairs: usize,
    count: Count,
    ghost some_room: { 0 < room },
}

impl Halves {
    // The base of the half that goes on.
    fn chosen(self, s: &[u32]) -> usize
        requires inside { self.first + self.room + self.room ≤ length s.now }
        requires first_fits { 2 + 2 * size s.now self.first ≤ self.room }
        requires second_fits { 2 + 2 * size s.now (self.first + self.room) ≤ self.room }
        ensures { Chooses self.first self.room self.pairs self.count s.now result × (result < word_limit) }
    {
        let middle = self.first + self.room;
        let end = middle + self.room;
        let r = fewer_flagged(
            &s[self.first..middle],
            &s[middle..end],
            self.pairs,
            self.count,
        );
        get(r, 0)
    }

    // The half that goes on is copied down to `h`.
    fn go_on(self, s: &mut [u32], h: usize)
        requires { (h < word_limit) × SideBySide self.first self.room h s.old }
        ensures { GoesOn self.first self.room self.pairs h self.count s.old s.new }
    {
        let from = self.chosen(s);
        let half = GraphCopy {
            from,
            to: h,
            alpha: 1,
        };
        half.copy(s);
    }
}

// The graph that a search splits, in which no party is in more than `d` pairs. What decides between two halves is `count`.
#[derive(Clone, Copy)]
struct SearchGraph {
    t: Table,
    graph: RegularGraph,
    count: Count,
    ghost places_small: { t.places < word_limit },
    ghost diag_small: { t.diag < word_limit },
    ghost rows_small: { t.pairs + graph.n < word_limit },
    ghost h_small: { graph.g < word_limit },
}

impl SearchGraph {
    // The graph with the table's map of places.
    fn mapped(self) -> MappedGraph
        ensures { (result.g ≡ self.graph.g) × (result.places ≡ self.t.places) }
    {
        MappedGraph {
            g: self.graph.g,
            places: self.t.places,
        }
    }

    // `beta` copies of left `i` with right `i`: the pair that has these ends, or a new one with the number of their row.
    fn add_pair(self, s: &mut [u32], beta: usize, i: usize)
        requires { i < self.graph.n }
        ensures { AddsEdge self.t.places self.graph.g (word s.old (self.t.diag + i)) (self.t.pairs + i) beta s.old s.new }
    {
        let key = pair_at(s, self.t.diag + i);
        let number = EdgeIndex::new(self.t.pairs + i);
        self.mapped().add_edge(s, key, number, beta);
    }

    // `beta` copies of each left party with the right party of the same place, in order.
    fn add_diagonal(self, s: &mut [u32], beta: usize)
        ensures { AddsDiagonal self.t self.graph.g self.graph.n beta s.old s.new }
    {
        let keys = PairNumbers {
            at: self.t.diag,
            n: self.graph.n,
        };
        self.mapped().map_places(s, keys);
        for i in 0..self.graph.n {
            self.add_pair(s, beta, i);
        }
    }

    // Builds it from the graph at `g`.
    fn build(self, s: &mut [u32], g: usize, alpha: usize, beta: usize)
        requires { InsideBoth g self.graph.g (size s.old g) s.old }
        ensures { BuildsGraph self.t g self.graph.g self.graph.n alpha beta s.old s.new }
    {
        let copy = GraphCopy {
            from: g,
            to: self.graph.g,
            alpha,
        };
        copy.copy(s);
        self.add_diagonal(s, beta);
    }

    // One halving: both halves are pushed, and the one that goes on is copied down to `h`.
    fn halve_once(self, s: &mut [u32], m: &mut Mark)
        requires { CanHalve self.t self.graph.g self.graph.n self.graph.d m.old.taken s.old }
        ensures { Halved self.t self.graph.g self.graph.n self.count m.old.taken m.new.taken s.old s.new × (m.new ≡ m.old) }
    {
        let RegularGraph { g, n, d } = self.graph;
        let u = m.taken;
        let halves = Halves {
            first: u,
            room: 2 * (n * (d + 1)),
            pairs: self.t.pairs,
            count: self.count,
        };
        splitting::rbmg_split_into_two(s, m, self.t.ends, g, n, d);
        halves.go_on(s, g);
        m.give_back(u);
    }

    // From degree `degree`, a power of two, down to degree 1.
    fn halve_all(self, s: &mut [u32], m: &mut Mark, degree: usize)
        requires { CanHalveAll self.t self.graph.g self.graph.n self.graph.d degree m.old.taken s.old }
        ensures { HalvedAll self.t self.graph.g self.graph.n self.graph.d degree self.count m.old.taken m.new.taken s.old s.new × (m.new ≡ m.old) }
    {
        if degree < 2 {
            return;
        }
        self.halve_once(s, m);
        self.halve_all(s, m, degree / 2);
    }
}

// How many pairs of the graph at `h`, whose words lie in so much room, are flagged.
fn flagged_in(s: &[u32], h: usize, room: usize, pairs: usize) -> usize
    requires { (h + room ≤ length s.now) × (2 + 2 * size s.now h ≤ room) }
    ensures { (ends : ℕ) → result ≡ flagged_pairs (graph_at s.now ends pairs h) }
{
    let end = h + room;
    flagged(&s[h..end], pairs, Count::FlaggedPairs)
}

// One search of a graph: what it leaves stands at the mark. Gives how many flagged pairs are among it.
fn search(s: &mut [u32], m: &mut Mark, t: Table, graph: RegularGraph, count: Count) -> usize
    requires { CanSearch t graph.g graph.n graph.d m.old.taken s.old }
    ensures { SearchDone t graph.g graph.n graph.d count m.old.taken m.new.taken result s.old s.new × (m.new ≡ m.old) }
{
    let RegularGraph { g, n, d: k } = graph;
    let room = 2 * (n * (k + 2));
    let h = m.take(room);
    let degree = next_power_of_two(k * n);
    let alpha = degree / k;
    let split = SearchGraph {
        t,
        graph: RegularGraph { g: h, n, d: k + 1 },
        count,
    };
    split.build(s, g, alpha, degree - k * alpha);
    split.halve_all(s, m, degree);
    m.give_back(h);
    flagged_in(s, h, room, t.pairs)
}

// The search that counts flagged pairs; and if one survives, the search that counts their copies.
fn searches(s: &mut [u32], m: &mut Mark, t: Table, graph: RegularGraph)
    requires { CanSearch t graph.g graph.n graph.d m.old.taken s.old }
    ensures { SearchesDone t graph.g graph.n graph.d m.old.taken m.new.taken s.old s.new × (m.new ≡ m.old) }
{
    let flagged = search(s, m, t, graph, Count::FlaggedPairs);
    if flagged == 0 {
        return;
    }
    search(s, m, t, graph, Count::FlaggedCopies);
}

// Reads the matching that lies as a graph at `h`: its pairs' numbers go to `numbers`.
pub fn read_matching(s: &mut [u32], h: usize, numbers: PairNumbers)
    requires { h < word_limit }
    ensures { ReadsMatching h numbers.n numbers.at s.old s.new }
{
    for i in 0..numbers.n {
        let e = pair_at(s, h + 2 + 2 * i);
        put(s, numbers.at + i, e.index());
    }
}

// The perfect matching of a regular graph: its pair numbers, in order, at `out`.
pub fn rbmg_find_perfect_matching(
    s: &mut [u32],
    m: &mut Mark,
    t: Table,
    graph: RegularGraph,
    out: usize,
)
    requires { CanFind t graph.g graph.n graph.d out m.old.taken s.old }
    ensures { MatchingFound t graph.g graph.n graph.d out m.old.taken m.new.taken s.old s.new × (m.new ≡ m.old) }
{
    let h = m.taken;
    searches(s, m, t, graph);
    let numbers = PairNumbers {
        at: out,
        n: graph.n,
    };
    read_matching(s, h, numbers);
}
