// Module 3 of document 01, `euler_cycles`: from each party in number order the walk takes the first remaining pair; when stuck it
// steps back and writes the pair down.
//
// Ported from rustworkx-core, `euler_cycles` in bipartite_coloring.rs (Apache License 2.0, see NOTICE).
#![tactic(auto)]

ghost use Rattle.std.specs.Prelude.{◌≡◌, ℕ, ◌+◌, ◌*◌, ◌<◌};
ghost use Rattle.words.specs.Words.{word_limit};
ghost use Rattle.walking.specs.Model.{Stage, pop_m, unlink_m, walk_m, begun};
ghost use Rattle.walking.specs.Bounds.{Pops, Unlinks, Walks};

use rings::Rings;
use words::{NodeIndex, set_word, word_at};

// What a place of the stack counts for an entry: more than any party's number, so that one word holds both.
const PLACE: usize = 2048;

// The half-edge x goes out of its ring, in which it stands after the node p.
#[tactic(auto, unfolding(crate::specs::Model::pop_m))]
fn unlink_after(s: &mut [u32], l: Rings, p: usize, x: usize)
    requires { Pops l s.old p x }
    ensures { s.new ≡ pop_m l s.old p x }
{
    let q = word_at(s, l.b + 2 * x);
    set_word(s, l.b + 2 * p, q);
    set_word(s, l.b + 2 * q + 1, p);
}

// The half-edge x goes out of its ring, wherever it stands.
#[tactic(auto, unfolding(crate::specs::Model::unlink_m, crate::specs::Model::pop_m))]
fn unlink(s: &mut [u32], l: Rings, x: usize)
    requires { Unlinks l s.old x }
    ensures { s.new ≡ unlink_m l s.old x }
{
    let p = word_at(s, l.b + 2 * x + 1);
    unlink_after(s, l, p, x);
}

// A walk: the party of the outer loop, the party at which it stands, the height of the stack, the places written.
#[derive(Clone, Copy)]
pub struct Walk {
    pub next: NodeIndex,
    pub at: NodeIndex,
    pub height: usize,
    pub written: usize,
}

impl Walk {
    ghost use Rattle.walking.specs.Model.{take_m, back_m, stuck_m, step_m};
    ghost use Rattle.walking.specs.Bounds.{Takes, Backs, Steps};

    // The first half-edge x of the party at which the walk stands is taken and followed; its mate goes too.
    #[tactic(auto, using(crate::proofs::Mates::mate_flips), unfolding(crate::specs::Model::take_m))]
    fn take(self, s: &mut [u32], l: Rings, x: usize) -> Walk
        requires x_bound { x < word_limit }
        requires takes { Takes l s.old self x }
        ensures { record { words = s.new; walk = result } ≡ take_m l s.old self x }
    {
        let v = self.at.index();
        let to = word_at(s, l.b + 2 * x + 3);
        unlink_after(s, l, l.top + v, x);
        unlink(s, l, x ^ 2);
        set_word(s, l.col + 2 * self.height, x / 4 * PLACE + v);
        Walk {
            at: NodeIndex::new(to),
            height: self.height + 1,
            ..self
        }
    }

    // Step back, write the place down, and mark its entry with the place's parity.
    #[tactic(auto, unfolding(crate::specs::Model::back_m))]
    fn step_back(self, s: &mut [u32], l: Rings) -> Walk
        requires on_the_stack { 0 < self.height }
        requires backs { Backs l s.old self }
        ensures { record { words = s.new; walk = result } ≡ back_m l s.old self }
    {
        let x = word_at(s, l.col + 2 * (self.height - 1));
        let i = x / PLACE;
        set_word(s, l.b + 8 * i + 2, 2 + self.written % 2);
        set_word(s, l.col + 2 * self.written + 1, i);
        Walk {
            at: NodeIndex::new(x % PLACE),
            height: self.height - 1,
            written: self.written + 1,
            ..self
        }
    }

    // Stuck: back, or on to the next party.
    #[tactic(auto, unfolding(crate::specs::Model::stuck_m))]
    fn stuck(self, s: &mut [u32], l: Rings) -> Walk
        requires next_bound { self.next.0 + 1 < word_limit }
        requires backs { 0 < self.height → Backs l s.old self }
        ensures { record { words = s.new; walk = result } ≡ stuck_m l s.old self }
    {
        if 0 < self.height {
            return self.step_back(s, l);
        }
        let on = NodeIndex::new(self.next.index() + 1);
        Walk {
            next: on,
            at: on,
            height: 0,
            ..self
        }
    }

    // One step of the walk, which is not past the last party.
    #[tactic(auto, unfolding(crate::specs::Model::step_m))]
    fn step(self, s: &mut [u32], l: Rings) -> Walk
        requires goes_on { self.next.0 < l.graph.parties }
        requires steps { Steps l s.old self }
        ensures { record { words = s.new; walk = result } ≡ step_m l l.graph.parties (record { words = s.old; walk = self }) }
    {
        let z = l.top + self.at.index();
        let x = word_at(s, l.b + 2 * z);
        if x == z {
            return self.stuck(s, l);
        }
        self.take(s, l, x)
    }
}

// `euler_cycles`: the walks from all parties, in number order, their places written one after the other. Each pair is taken
// and written down once, so two steps for each pair and one for each party suffice.
#[tactic(auto, unfolding(words::specs::Basics::iterate))]
pub fn euler_cycles(s: &mut [u32], l: Rings) -> usize
    requires { Walks l l.graph.parties (2 * l.graph.m + l.graph.parties) s.old }
    ensures { (s.new ≡ (walk_m l l.graph.parties (2 * l.graph.m + l.graph.parties) (begun s.old)).words)
        × (result ≡ (walk_m l l.graph.parties (2 * l.graph.m + l.graph.parties) (begun s.old)).walk.written) × (result < 68719476736) }
{
    let bound = 2 * l.graph.m + l.graph.parties;
    let mut w = Walk {
        next: NodeIndex(0),
        at: NodeIndex(0),
        height: 0,
        written: 0,
    };
    for _ in 0..bound {
        if l.graph.parties <= w.next.index() {
            return w.written;
        }
        w = w.step(s, l);
    }
    w.written
}
