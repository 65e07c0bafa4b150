// Module 4 of document 01, `rbmg_split_into_two`, over scratch words. The words of a split, from its mark up: the first half, the
// second half, eight words for each entry, two for each party, and two columns.
//
// Ported from rustworkx-core, `rbmg_split_into_two` in bipartite_coloring.rs (Apache License 2.0, see NOTICE).
#![tactic(auto)]

ghost use Rattle.std.specs.Prelude.{◌≡◌, ℕ, ◌+◌, ◌*◌, ◌≤◌};
ghost use Rattle.words.specs.Sides.{offset_of};
ghost use Rattle.splitting.specs.Model.{split_m};
ghost use Rattle.splitting.specs.Bounds.{SplitFits};
ghost use Rattle.euler.specs.Room.{Splits, HalvesStored};
ghost use Rattle.mark.specs.Taking.{taken_more};

use circuits::Two;
use euler::StoredGraph;
use halves::Half;
use mark::Mark;
use rings::Rings;
use words::Side;

mod halves; // halves.rt: what the walk gives to each half

// The rings, the walk along them, and both halves from what it has written.
#[tactic(auto, unfolding(crate::specs::Model::split_m))]
fn split_words(s: &mut [u32], l: Rings, first: Half, second: Half)
    requires { SplitFits l first.h (offset_of first.side) second.h (offset_of second.side) l.graph.m l.graph.parties s.old }
    ensures { s.new ≡ split_m l first.h (offset_of first.side) second.h (offset_of second.side) l.graph.m l.graph.parties s.old }
{
    l.fill_rings(s);
    let written = walking::euler_cycles(s, l);
    first.write(s, l, written);
    second.write(s, l, written);
}

// Both halves of the graph at g: the first at u, the second 2·n·(width + 1) words above it. Everything below u stays.
fn split_at(s: &mut [u32], u: usize, ends: usize, g: usize, n: usize, width: usize)
    requires { Splits s.old u ends g n width }
    ensures { HalvesStored s.old s.new u (u + 4 * (n * (width + 1))) ends g n width }
{
    let k = n * (width + 1);
    let m = words::get(s, g + 1);
    let graph = StoredGraph {
        g,
        m,
        parties: 2 * n,
        ends,
    };
    if circuits::copies_sum(s, g, m, 2 * n) == Some(2 * n) {
        let l = Two {
            graph,
            first: u,
            second: u + 2 * k,
            b: u + 4 * k,
            notes: u + 8 * k,
        };
        l.split_two(s);
        return;
    }
    let b = u + 2 * k + 2 * k;
    let l = Rings {
        graph,
        b,
        top: 4 * k,
        col: b + 10 * k,
    };
    let first = Half {
        h: u,
        side: Side::First,
    };
    let second = Half {
        h: u + 2 * k,
        side: Side::Second,
    };
    split_words(s, l, first, second);
}

// `rbmg_split_into_two`: takes the words that it needs, and gives back all but the two halves, which stand at the old mark.
pub fn rbmg_split_into_two(
    s: &mut [u32],
    m: &mut Mark,
    ends: usize,
    g: usize,
    n: usize,
    width: usize,
)
    requires { Splits s.old m.old.taken ends g n width }
    ensures { HalvesStored s.old s.new m.old.taken m.new.taken ends g n width × (m.new ≡ taken_more (4 * (n * (width + 1))) m.old) }
{
    let k = n * (width + 1);
    let u = m.take(16 * k);
    split_at(s, u, ends, g, n, width);
    m.give_back(u + 4 * k);
}
