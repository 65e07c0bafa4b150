// Both colouring routines over scratch words: modules 6 and 7 of document 01.
//
// The colouring of a graph of degree d is d matchings of n pair numbers, side by side at `out`. Graphs that are made on the way
// stand above the mark, which is put back at the end.
//
// Ported from rustworkx-core, `rbmg_edge_color_when_power_of_two` and `rbmg_edge_color` in bipartite_coloring.rs (Apache License 2.0, see NOTICE).
#![tactic(auto)]

ghost use Rattle.std.specs.Prelude.{◌≡◌, ◌+◌, ◌*◌, ◌-◌, ◌^◌, ◌<◌, ◌≤◌};
ghost use Rattle.words.specs.Words.{word_limit};
ghost use Rattle.multigraph.specs.Places.{AddsMatching};
ghost use Rattle.words.specs.PowersOfTwo.{log_up};
ghost use Rattle.edge_color.specs.Room.{PowerFits, PowerColored, ColorFits, AsideStored, Colored};

use euler::RegularGraph;
use mark::Mark;
use matching::Table;
use multigraph::{MappedGraph, PairNumbers};

// `rbmg_edge_color_when_power_of_two`. Degree 1: one matching. Otherwise the first half's matchings, then the second's.
pub fn rbmg_edge_color_when_power_of_two(
    s: &mut [u32],
    m: &mut Mark,
    ends: usize,
    graph: RegularGraph,
    out: usize,
)
    requires { PowerFits s.old m.old.taken ends graph.g graph.n graph.d out }
    ensures { PowerColored s.old s.new m.old.taken m.new.taken ends graph.g graph.n graph.d out × (m.new ≡ m.old) }
{
    let RegularGraph { g, n, d } = graph;
    if d == 1 {
        let numbers = PairNumbers { at: out, n };
        matching::read_matching(s, g, numbers);
        return;
    }
    let u = m.taken;
    let h = d / 2;
    let first = RegularGraph { g: u, n, d: h };
    let second = RegularGraph {
        g: u + 2 * (n * (d + 1)),
        n,
        d: h,
    };
    splitting::rbmg_split_into_two(s, m, ends, g, n, d);
    rbmg_edge_color_when_power_of_two(s, m, ends, first, out);
    rbmg_edge_color_when_power_of_two(s, m, ends, second, out + n * h);
    m.give_back(u);
}

// Odd degree: one matching is set aside, behind the place of the others, and removed from the graph. Gives the graph without
// it; for even degree that is the graph itself.
fn set_aside(s: &mut [u32], m: &mut Mark, t: Table, graph: RegularGraph, out: usize) -> usize
    requires { ColorFits t s.old m.old.taken graph.g graph.n graph.d out × (1 < graph.d) }
    ensures { AsideStored t s.old s.new m.old.taken m.new.taken graph.g result graph.n graph.d out }
{
    let RegularGraph { g, n, d } = graph;
    if d % 2 == 0 {
        return g;
    }
    let aside = PairNumbers {
        at: out + n * (d - 1),
        n,
    };
    matching::rbmg_find_perfect_matching(s, m, t, graph, aside.at);
    let u = m.take(2 * (n * (d + 1)));
    let mapped = MappedGraph {
        g,
        places: t.places,
    };
    mapped.remove_matching(s, u, aside);
    u
}

// The matchings at `from`, side by side: the earliest of them go to the graph `second`, of degree `h`, until its degree is a power of
// two, which is given.
fn move_earliest(s: &mut [u32], second: MappedGraph, from: usize, n: usize, h: usize) -> usize
    requires { (h < word_limit) × (n * (2 ^ log_up h - h) < word_limit) × (from < word_limit) }
    ensures { (result ≡ 2 ^ log_up h) × AddsMatching second.places second.g from (n * (result - h)) s.old s.new }
{
    let r = matching::next_power_of_two(h);
    let earliest = PairNumbers {
        at: from,
        n: n * (r - h),
    };
    second.add_matching(s, earliest);
    r
}

// `rbmg_edge_color`. Odd degree above 1: one matching is set aside. Split; colour the first half by this same routine; move its
// earliest matchings to the second until that degree is a power of two. Result: the second half's, what is left of the first's,
// the one set aside.
pub fn rbmg_edge_color(s: &mut [u32], m: &mut Mark, t: Table, graph: RegularGraph, out: usize)
    requires { ColorFits t s.old m.old.taken graph.g graph.n graph.d out }
    ensures { Colored t s.old s.new m.old.taken m.new.taken graph.g graph.n graph.d out × (m.new ≡ m.old) }
{
    let RegularGraph { g, n, d } = graph;
    if d == 0 {
        return;
    }
    if d == 1 {
        let numbers = PairNumbers { at: out, n };
        matching::read_matching(s, g, numbers);
        return;
    }
    let u = m.taken;
    let h = d / 2;
    let from = out + n * h;
    let rest = set_aside(s, m, t, graph, out);
    let first = RegularGraph {
        g: m.taken,
        n,
        d: h,
    };
    let second = MappedGraph {
        g: first.g + 2 * (n * (d + 1)),
        places: t.places,
    };
    splitting::rbmg_split_into_two(s, m, t.ends, rest, n, d);
    rbmg_edge_color(s, m, t, first, from);
    let r = move_earliest(s, second, from, n, h);
    let power = RegularGraph {
        g: second.g,
        n,
        d: r,
    };
    rbmg_edge_color_when_power_of_two(s, m, t.ends, power, out);
    m.give_back(u);
}
