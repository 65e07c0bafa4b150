// Document 02's request 1, asking for many parties together: for each party asked for its load, its lowest slot and its highest slot, from one
// walk of the list. The walk keeps these three for every party, in a table by party number, so its cost doesn't depend on what is asked.
#![tactic(auto)]

ghost use Rattle.std.specs.Prelude.{◌≡◌, ℕ, ◌*◌, ◌+◌, ◌<◌, ◌≤◌, leb, length};
ghost use Rattle.words.specs.Words.{word};
ghost use Rattle.appointments.specs.Appointments.{appts};
ghost use Rattle.appointments.specs.Checks.{first_of, first_from};
ghost use Rattle.appointments.specs.Answers.{over};
ghost use Rattle.appointments.specs.Refusals.{told};
ghost use Rattle.asking_many.specs.Many.{or_none, asked_of_all, many_answer, many_output};
ghost use Rattle.asking_many.specs.Tables.{entered, Table, Walkable, put_three};

use appointments::Refusal;
use asking::Span;

// What the walk has seen of a party: its load, and of its slots the lowest and the highest.
#[derive(Clone, Copy)]
struct Row {
    load: u16,
    span: Span,
}

impl Row {
    // Enters a slot, for one end of its appointment.
    fn enter(&mut self, slot: u16)
        requires { self.old.load < 65535 }
        ensures { self.new ≡ entered slot self.old }
    {
        self.load += 1;
        self.span.include(slot);
    }

    // A slot to be told; 65,535 where the load is 0.
    fn or_none(self, slot: u16) -> u16
        ensures { result ≡ or_none self.load slot }
    {
        if self.load == 0 { 65535 } else { slot }
    }
}

// The walk: enters every appointment, for both its ends. A party with itself is entered twice: its load is two higher, and a slot that comes
// again changes neither the lowest nor the highest.
fn enter_all(list: &[u16], slots: &[u16]) -> [Row; 1024]
    requires { Walkable list.now slots.now }
    ensures { Table (appts list.now) slots.now result }
{
    let mut rows = [Row {
        load: 0,
        span: Span::none(),
    }; 1024];
    for (&[first, second], &slot) in list.as_chunks::<2>().0.iter().zip(slots) {
        rows[usize::from(first)].enter(slot);
        rows[usize::from(second)].enter(slot);
    }
    rows
}

// Answers query `j`: the three entries of the party that it names.
fn answer_query(row: Row, j: usize, output: &mut [u16])
    requires { 3 * j + 2 < length output.old }
    ensures { output.new ≡ put_three output.old j row }
{
    output[3 * j] = row.load;
    output[3 * j + 1] = row.or_none(row.span.lowest);
    output[3 * j + 2] = row.or_none(row.span.highest);
}

// Answers all queries: one walk of the list, then three entries for each query. Those behind them stay.
fn answer_all(list: &[u16], slots: &[u16], queries: &[u16], output: &mut [u16])
    requires walkable { Walkable list.now slots.now }
    requires by_index { (j : ℕ) → j < length queries.now → word queries.now j < 1024 }
    requires queries_in_bounds { 3 * length queries.now ≤ length output.old }
    ensures { output.new ≡ over (asked_of_all (appts list.now) slots.now queries.now) output.old }
{
    let rows = enter_all(list, slots);
    for (j, party) in queries.iter().enumerate() {
        answer_query(rows[usize::from(*party)], j, output);
    }
}

// The first query for a party that is not below P.
fn first_not_below(p: u16, queries: &[u16]) -> Option<usize>
    ensures { first_of result ≡ first_from 0 (leb p) queries.now }
{
    queries.iter().position(|v| p <= *v)
}

// Checks 1 to 5 and 7 of the list and its slots, then 14, 15 and 13; passed, the output's first entries are the answers.
pub fn ask_many(
    p: u16,
    list: &[u16],
    slots: &[u16],
    queries: &[u16],
    output: &mut [u16],
) -> Result<(), Refusal>
    ensures answer { told result ≡ many_answer p list.now slots.now queries.now output.old }
    ensures output { output.new ≡ many_output p list.now slots.now queries.now output.old }
{
    checking::check_with_slots(usize::from(p), list, slots.len())?;
    if 64 < queries.len() {
        return Err(Refusal::ManyQueries);
    }
    if let Some(j) = first_not_below(p, queries) {
        return Err(Refusal::UnlistedQuery(j));
    }
    if output.len() < 3 * queries.len() {
        return Err(Refusal::ShortOutput);
    }
    answer_all(list, slots, queries, output);
    Ok(())
}
