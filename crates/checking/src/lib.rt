// Checks 1 to 8 of a list of appointments, 1, 2, 3 and 7 also each by itself, for calls that don't make the others; and how much scratch a list
// needs. Scratch is not touched before check 8 has passed, so loads stand in a local array.
#![tactic(auto)]

ghost use Rattle.std.specs.Prelude.{◌≡◌, ℕ, ◌+◌, ◌*◌, ◌%◌, ◌<◌, ◌≤◌, length};
ghost use Rattle.words.specs.Basics.{count};
ghost use Rattle.words.specs.Words.{word};
ghost use Rattle.appointments.specs.Appointments.{appts, largest_load, scratch_words};
ghost use Rattle.appointments.specs.Checks.{check_parties, check_even, check_count, check_slots, check_ends, checks_1_to_5, checks_with_slots, checks_1_to_6, checks, passed};
ghost use Rattle.appointments.specs.Refusals.{told};
ghost use Rattle.checking.specs.Checked.{checked, answered, largest_word, WordsFit};
ghost use Rattle.appointments.specs.Needed.{needs_answer};

use appointments::{Needs, Refusal};
use bad_ends::first_bad_ends;

// Check 1: P above 1,024.
pub fn check_parties(p: usize) -> Result<(), Refusal>
    ensures { told result ≡ checked (check_parties p passed) }
{
    if 1024 < p {
        return Err(Refusal::ManyParties);
    }
    Ok(())
}

// Check 2: the list's length is odd.
pub fn check_even(list: &[u16]) -> Result<(), Refusal>
    ensures { told result ≡ checked (check_even list.now passed) }
{
    if list.len() % 2 == 1 {
        return Err(Refusal::OddLength);
    }
    Ok(())
}

// Check 3: more appointments than 4,096.
pub fn check_count(count: usize) -> Result<(), Refusal>
    ensures { told result ≡ checked (check_count count passed) }
{
    if 4096 < count {
        return Err(Refusal::ManyAppointments);
    }
    Ok(())
}

// Check 7: fewer entries for slots than appointments.
pub fn check_slots(slots: usize, count: usize) -> Result<(), Refusal>
    ensures { told result ≡ checked (check_slots slots count passed) }
{
    if slots < count {
        return Err(Refusal::FewSlots);
    }
    Ok(())
}

// Counts how often the list names each party, over counters that are 0.
fn count_loads(list: &[u16], loads: &mut [u32])
    requires list_len_bound { length list.now ≤ 8192 }
    requires by_index { (v : ℕ) → word loads.old v ≡ 0 }
    ensures { (v : ℕ) → v < length loads.old → word loads.new v ≡ count v list.now }
{
    for v in list {
        let v = usize::from(*v);
        let load = words::get(loads, v);
        words::put(loads, v, load + 1);
    }
}

// The largest of some counters, and 0 of none.
fn largest(loads: &[u32]) -> usize
    ensures { result ≡ largest_word (length loads.now) loads.now }
{
    loads.iter().max().copied().unwrap_or(0) as usize
}

// D: the largest load among the parties below `p`.
fn largest_load(p: usize, list: &[u16]) -> usize
    requires { (p ≤ 1024) × (length list.now ≤ 8192) × (length list.now % 2 ≡ 0) }
    ensures { result ≡ largest_load p (appts list.now) }
{
    let mut loads = [0u32; 1024];
    count_loads(list, &mut loads);
    largest(&loads[..p])
}

// Checks 4 and 5, decided after one walk of the list: a blank end anywhere, else another end that is not below `p`. P fits 16 bits, since check 1 has
// passed.
fn check_ends(p: usize, list: &[u16]) -> Result<(), Refusal>
    requires { p ≤ 1024 }
    ensures { told result ≡ checked (check_ends p list.now passed) }
{
    let ends = first_bad_ends(p as u16, list);
    if let Some(i) = ends.blank {
        return Err(Refusal::BlankEnd(i));
    }
    if let Some(i) = ends.unlisted {
        return Err(Refusal::UnlistedEnd(i));
    }
    Ok(())
}

// Checks 1 to 5, those of the list alone.
fn check_list(p: usize, list: &[u16]) -> Result<(), Refusal>
    ensures { told result ≡ checked (checks_1_to_5 p list.now passed) }
{
    check_parties(p)?;
    check_even(list)?;
    check_count(list.len() / 2)?;
    check_ends(p, list)
}

// Checks 1 to 5, then 7. D is not asked for, so it isn't counted.
pub fn check_with_slots(p: usize, list: &[u16], slots: usize) -> Result<(), Refusal>
    ensures { told result ≡ checked (checks_with_slots p list.now slots passed) }
{
    check_list(p, list)?;
    check_slots(slots, list.len() / 2)
}

// Checks 1 to 6, those before any buffer is looked at; passed, it gives D.
pub fn check_size(p: usize, list: &[u16]) -> Result<usize, Refusal>
    ensures { told result ≡ answered (checks_1_to_6 p list.now passed) (largest_load p (appts list.now)) }
{
    check_list(p, list)?;
    let d = largest_load(p, list);
    if 8192 < d * p {
        return Err(Refusal::LargeProduct);
    }
    Ok(d)
}

// W, the words that scratch needs. It fits, since check 6 has passed.
pub fn scratch_words(p: usize, d: usize) -> usize
    requires { WordsFit p d }
    ensures { result ≡ scratch_words p d }
{
    128 * p * (d + 1)
}

// Checks 1 to 8, of P, the list and the lengths of the slot buffer and of scratch; passed, it gives D.
pub fn check_all(p: usize, list: &[u16], slots: usize, scratch: usize) -> Result<usize, Refusal>
    ensures { told result ≡ answered (checks p list.now slots scratch) (largest_load p (appts list.now)) }
{
    let d = check_size(p, list)?;
    check_slots(slots, list.len() / 2)?;
    if scratch < scratch_words(p, d) {
        return Err(Refusal::LittleScratch);
    }
    Ok(d)
}

// How much scratch the list needs: checks 1 to 6, then D and W.
pub fn needs(p: usize, list: &[u16]) -> Result<Needs, Refusal>
    ensures { told result ≡ needs_answer p list.now }
{
    let d = check_size(p, list)?;
    Ok(Needs {
        d,
        words: scratch_words(p, d),
    })
}
