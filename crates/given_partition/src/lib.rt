// `bipartite_edge_color_given_partition`: from a list on two sides, as `two_color` wrote them, by the evened graph and its matchings
// to a slot for each appointment.
//
// Scratch is counted in units of q = P·(D + 1) words, of which W has 128.
//
// Ported from rustworkx-core, `bipartite_edge_color_given_partition` in bipartite_coloring.rs (Apache License 2.0, see NOTICE).
#![tactic(auto)]

ghost use Rattle.std.specs.Prelude.{◌≡◌, ℕ, zero, ◌+◌, ◌*◌, ◌<◌, ◌≤◌, length};
ghost use Rattle.appointments.specs.Appointments.{appts};
ghost use Rattle.edge_color.specs.Room.{ColorFits, Colored};
ghost use Rattle.given_partition.specs.Steps.{left_side, right_side, Sided, Prepared, SlotsPlanned};

use euler::RegularGraph;
use list_pairs::Bases;
use mark::Mark;
use matching::Table;
use multigraph::PairNumbers;
use slot_chains::Chains;

// Where things lie, in units of q words (specs/Steps.antt): the ends of the pairs, the map of places, each appointment's pair, the
// matchings, the graph, and above all this the first mark.
const ENDS: usize = 3;

const PLACES: usize = 7;

const APAIR: usize = 9;

const OUT: usize = 10;

const GRAPH: usize = 11;

const FIRST_MARK: usize = 15;

// The list's pairs on two equally long sides, evened out, with the numbers of the pairs on the diagonal. Gives how many parties
// each side has. The mark is made above all that lies at a fixed place, and each step gives back what it takes.
fn prepare(s: &mut [u32], list: &[u16], p: usize, d: usize, q: usize, left: usize) -> usize
    requires { Sided p d q left list.now s.old }
    ensures { Prepared p d q result list.now (left_side s.old left) (right_side s.old p left) s.new × (length s.new ≡ length s.old) }
{
    let mut m = Mark {
        taken: FIRST_MARK * q,
    };
    let at = Bases {
        left: 0,
        right: p,
        ends: ENDS * q,
        apair: APAIR * q,
        g: GRAPH * q,
    };
    let n = evening::pad_sides(s, p, 0, left, p, p - left);
    list_pairs::pairs_from_list(s, &mut m, list, p, d, at);
    evening::even_out(s, &mut m, list, d, n, at);
    diagonal::diagonal(s, &mut m, n, at, 2 * p);
    n
}

// `rbmg_edge_color` on a scratch whose first `taken` words are taken.
fn color(s: &mut [u32], taken: usize, t: Table, graph: RegularGraph, out: usize)
    requires { ColorFits t s.old taken graph.g graph.n graph.d out }
    ensures { Colored t s.old s.new taken taken graph.g graph.n graph.d out }
{
    let mut m = Mark { taken };
    edge_color::rbmg_edge_color(s, &mut m, t, graph, out);
}

// The slots of a list whose first `left` parties, as `two_color` wrote them, stand on the left: the graph is evened out and
// coloured, and each appointment gets a slot by the matchings. The graph is done with when the slots are given, so its words take
// the first link of each pair.
pub fn bipartite_edge_color_given_partition(
    s: &mut [u32],
    slots: &mut [u16],
    list: &[u16],
    p: usize,
    d: usize,
    left: usize,
)
    requires sided { Sided p d (p * (d + 1)) left list.now s.old }
    requires list_in_bounds { length (appts list.now) ≤ length slots.old }
    ensures { SlotsPlanned p left list.now slots.old slots.new s.old s.new }
{
    let q = p * (d + 1);
    let g = GRAPH * q;
    let out = OUT * q;
    let n = prepare(s, list, p, d, q, left);
    let pairs = words::get(s, g + 1);
    let t = Table {
        ends: ENDS * q,
        places: PLACES * q,
        diag: 2 * p,
        pairs,
    };
    let graph = RegularGraph { g, n, d };
    color(s, FIRST_MARK * q, t, graph, out);
    let links = g;
    let chains = Chains { n, d, out, links };
    let numbers = PairNumbers {
        at: APAIR * q,
        n: list.len() / 2,
    };
    slots::give_slots(s, slots, chains, numbers);
}
