// Giving slots over scratch words: the second half of module 8 of document 01, `bipartite_edge_color_given_partition`. Its meaning is the
// definition `give_slots` in the crate `highest_slot`.
//
// `slot_chains` makes of the matchings a chain of each pair's slots, the highest first. A second pass, here, over the appointments, takes the
// first link of each appointment's pair.
//
// Ported from rustworkx-core, the second half of `bipartite_edge_color_given_partition` in bipartite_coloring.rs (Apache License 2.0, see NOTICE).
#![tactic(auto)]

ghost use Rattle.std.specs.Prelude.{◌≡◌, ◌+◌, ◌*◌, ◌≤◌, length};
ghost use Rattle.words.specs.Words.{word};
ghost use Rattle.slots.specs.Stored.{GivesSlots};
ghost use Rattle.slot_chains.specs.Steps.{taken_words, taken_slots, given_words, given_slots};

use multigraph::{PairNumbers, pair_at};
use slot_chains::{Chains, LINK};
use words::{get, put};

// The pair whose number stands at `at` gives its first link's slot to appointment `i`, and goes on to its next link.
#[tactic(auto, using(slot_chains::proofs::StepLaws::take_is, slot_chains::proofs::StepLaws::slot_is))]
fn take_slot(s: &mut [u32], slots: &mut [u16], chains: Chains, at: usize, i: usize)
    ensures { (s.new ≡ taken_words chains.out chains.links at s.old) × (slots.new ≡ taken_slots chains.links at i s.old slots.old) }
{
    let e = pair_at(s, at);
    let link = chains.first_link(s, e);
    put(slots, i, link / LINK);
    let next = get(s, chains.out + link % LINK);
    chains.set_first_link(s, e, next);
}

// A slot for each appointment, in list order.
fn take_all(s: &mut [u32], slots: &mut [u16], chains: Chains, numbers: PairNumbers)
    ensures { (s.new ≡ given_words chains.out numbers.at chains.links 0 numbers.n s.old) × (slots.new ≡ given_slots chains.out numbers.at chains.links 0 numbers.n s.old slots.old) }
{
    for i in 0..numbers.n {
        take_slot(s, slots, chains, numbers.at + i, i);
    }
}

// Each appointment, in list order, takes the highest slot its pair has left. Number i is that of appointment i's pair; the matchings
// are used up.
pub fn give_slots(s: &mut [u32], slots: &mut [u16], chains: Chains, numbers: PairNumbers)
    requires { chains.out + chains.n * chains.d ≤ length s.old }
    ensures { GivesSlots numbers.n chains.n chains.d chains.out numbers.at chains.links s.old slots.old s.new slots.new }
{
    chains.push_all(s);
    take_all(s, slots, chains, numbers);
}
