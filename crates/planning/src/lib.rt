// The planning call, `bipartite_edge_color`: checks 1 to 8, two sides, the evened graph, its matchings, and a slot for each
// appointment. No list is refused but by document 01's table, and demand 3 holds of every answer.
//
// Ported from rustworkx-core, `bipartite_edge_color` in bipartite_coloring.rs (Apache License 2.0, see NOTICE).
#![tactic(auto)]

ghost use Rattle.std.specs.Prelude.{◌≡◌, ℕ, zero, ◌+◌, ◌*◌, ◌<◌, ◌≤◌, length, replicate};
ghost use Rattle.appointments.specs.Appointments.{appts};
ghost use Rattle.appointments.specs.Lent.{lent};
ghost use Rattle.given_partition.specs.Steps.{Ready};
ghost use Rattle.planning.specs.Planning.{plan_answer, plan_slots, plan_scratch};
ghost use Rattle.planning.specs.Demand3.{Demand3};
ghost use Rattle.appointments.specs.Refusals.{told};
ghost use Rattle.planning.specs.Steps.{WorkedOut};

use appointments::Refusal;

// The answer to a list that passed the checks, and its slots; scratch, of W words, is left as it happens to be.
fn work_out(
    s: &mut [u32],
    slots: &mut [u16],
    list: &[u16],
    p: usize,
    d: usize,
) -> Result<usize, Refusal>
    requires ready { Ready p d (p * (d + 1)) list.now s.old }
    requires list_in_bounds { length (appts list.now) ≤ length slots.old }
    ensures { WorkedOut p d list.now slots.old slots.new (told result) s.old s.new }
{
    if p == 0 {
        return Ok(0);
    }
    let left = two_color::two_sides(s, p, d, list).ok_or(Refusal::OddRound)?;
    given_partition::bipartite_edge_color_given_partition(s, slots, list, p, d, left);
    Ok(d)
}

// The same, and all of scratch is cleared.
fn work_out_cleanly(
    s: &mut [u32],
    slots: &mut [u16],
    list: &[u16],
    p: usize,
    d: usize,
) -> Result<usize, Refusal>
    requires ready { Ready p d (p * (d + 1)) list.now s.old }
    requires list_in_bounds { length (appts list.now) ≤ length slots.old }
    ensures worked_out { WorkedOut p d list.now slots.old slots.new (told result) s.old s.new }
    ensures s_after { s.new ≡ replicate (length s.old) 0 }
{
    let answer = work_out(s, slots, list, p, d);
    s.fill(0);
    answer
}

// The planning call: the slots of a list of appointments between `p` parties, or a refusal. Accepted, the first A entries of `slots`
// hold the plan. The first W words of `scratch` are 0 after acceptance and after 9; 1 to 8 leave all. What both held affects nothing.
pub fn bipartite_edge_color(
    p: u16,
    list: &[u16],
    slots: &mut [u16],
    scratch: &mut [u32],
) -> Result<usize, Refusal>
    ensures answer { told result ≡ plan_answer (lent p list.now slots.old scratch.old) }
    ensures slots { slots.new ≡ plan_slots (lent p list.now slots.old scratch.old) }
    ensures scratch { scratch.new ≡ plan_scratch (lent p list.now slots.old scratch.old) }
    ensures demand_3 { Demand3 (lent p list.now slots.old scratch.old) (told result) slots.new }
{
    let parties = usize::from(p);
    let d = checking::check_all(parties, list, slots.len(), scratch.len())?;
    let w = checking::scratch_words(parties, d);
    work_out_cleanly(&mut scratch[..w], slots, list, parties, d)
}
