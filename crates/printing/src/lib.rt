// What main prints: text behind what was put before it, line by line, into a string or a lent slice. Every function needs room
// for its text.
#![tactic(auto)]

ghost use Rattle.std.specs.Prelude.{◌<◌, [], ◌∷◌};
ghost use Rattle.appointments.specs.Appointments.{appt, appts};
ghost use Rattle.printing.specs.Printing.{decimal, line, party_line, appointment_line, appointment_lines, party_lines, plan_lines, refusal_line};
ghost use Rattle.printing.specs.Placed.{State, string, slice, Fits, Placed, Room, Printed, field};

use arrayvec::ArrayString;
use itoa::Buffer;

// Where text is put, behind what was put before.
pub trait Output {
    // What was put so far, and for how much more there is room.
    ghost state: { Self → State };

    // Puts a text and the character behind it, a space or a line feed.
    fn put_text(&mut self, text: &str, end: char)
        requires room { Fits (state self.old) (field text.now end) }
        requires one_byte { end < 128 }
        ensures { Placed (state self.old) (field text.now end) (state self.new) };
}

impl<const N: usize> Output for ArrayString<N> {
    ghost state = { λ s. string N s.bytes };

    fn put_text(&mut self, text: &str, end: char) {
        self.push_str(text);
        self.push(end);
    }
}

// A lent slice, and how many of its first bytes are put.
#[derive(Drop)]
struct Lent<'a> {
    out: &'a mut [u8],
    count: usize,
}

impl Output for Lent<'_> {
    ghost state = { λ l. slice l.out.now l.count l.out.ghost_name };

    fn put_text(&mut self, text: &str, end: char) {
        let start = self.count;
        let at = start + text.len();
        let out = &mut *self.out;
        out[start..at].copy_from_slice(text.as_bytes());
        out[at] = end as u8;
        self.count = at + 1;
    }
}

// Puts a number and the character behind it.
fn put_field<O: Output>(out: &mut O, n: usize, end: char)
    requires room { Fits (O.state out.old) (field (decimal n) end) }
    requires one_byte { end < 128 }
    ensures { Placed (O.state out.old) (field (decimal n) end) (O.state out.new) }
{
    out.put_text(Buffer::new().format(n), end);
}

// Puts the line of an appointment: its position, ends and slot.
fn put_appointment<O: Output>(i: usize, first: u16, second: u16, slot: usize, out: &mut O)
    requires { Fits (O.state out.old) (appointment_line i (appt first second) slot) }
    ensures { Placed (O.state out.old) (appointment_line i (appt first second) slot) (O.state out.new) }
{
    put_field(out, i, ' ');
    put_field(out, usize::from(first), ' ');
    put_field(out, usize::from(second), ' ');
    put_field(out, slot, '\n');
}

// Puts the lines of all appointments.
fn put_appointments<O: Output>(list: &[u16], slots: &[u16], out: &mut O)
    requires { Fits (O.state out.old) (appointment_lines 0 (appts list.now) slots.now) }
    ensures { Placed (O.state out.old) (appointment_lines 0 (appts list.now) slots.now) (O.state out.new) }
{
    for (i, &[first, second]) in list.as_chunks::<2>().0.iter().enumerate() {
        put_appointment(i, first, second, words::get(slots, i), out);
    }
}

// Puts a line of a word and two numbers.
fn put_line<O: Output>(word: &str, first: usize, second: usize, out: &mut O)
    requires { Fits (O.state out.old) (line (word.now ∷ decimal first ∷ decimal second ∷ [])) }
    ensures { Placed (O.state out.old) (line (word.now ∷ decimal first ∷ decimal second ∷ [])) (O.state out.new) }
{
    out.put_text(word, ' ');
    put_field(out, first, ' ');
    put_field(out, second, '\n');
}

// Puts the line of a party: the party and its waiting.
fn put_party<O: Output>(list: &[u16], slots: &[u16], party: u16, out: &mut O)
    requires { Fits (O.state out.old) (party_line (appts list.now) slots.now party) }
    ensures { Placed (O.state out.old) (party_line (appts list.now) slots.now party) (O.state out.new) }
{
    let waits = asking::waiting_of(list, slots, party);
    put_line("party", usize::from(party), waits, out);
}

// Puts the lines of all parties.
fn put_parties<O: Output>(p: u16, list: &[u16], slots: &[u16], out: &mut O)
    requires { Fits (O.state out.old) (party_lines (appts list.now) slots.now 0 p) }
    ensures { Placed (O.state out.old) (party_lines (appts list.now) slots.now 0 p) (O.state out.new) }
{
    for party in 0..p {
        put_party(list, slots, party, out);
    }
}

// Puts an accepted plan: D, then the appointments, then the parties.
pub fn put_plan_lines<O: Output>(p: u16, list: &[u16], d: usize, slots: &[u16], out: &mut O)
    requires { Fits (O.state out.old) (plan_lines p list.now d slots.now) }
    ensures { Placed (O.state out.old) (plan_lines p list.now d slots.now) (O.state out.new) }
{
    out.put_text("plan", ' ');
    put_field(out, d, '\n');
    put_appointments(list, slots, out);
    put_parties(p, list, slots, out);
}

// Puts the one line of a refusal.
pub fn put_refusal_line<O: Output>(number: usize, place: usize, out: &mut O)
    requires { Fits (O.state out.old) (refusal_line number place) }
    ensures { Placed (O.state out.old) (refusal_line number place) (O.state out.new) }
{
    put_line("refused", number, place, out);
}

// Puts an accepted plan at the start of a lent slice. It gives the number of bytes.
pub fn put_plan(p: u16, list: &[u16], d: usize, slots: &[u16], out: &mut [u8]) -> usize
    requires { Room out.old 0 (plan_lines p list.now d slots.now) }
    ensures { Printed (plan_lines p list.now d slots.now) result out.old out.new }
{
    let mut lent = Lent { out, count: 0 };
    put_plan_lines(p, list, d, slots, &mut lent);
    lent.count
}

// Puts the one line of a refusal at the start of a lent slice. It gives the number of bytes.
pub fn put_refusal(number: usize, place: usize, out: &mut [u8]) -> usize
    requires { Room out.old 0 (refusal_line number place) }
    ensures { Printed (refusal_line number place) result out.old out.new }
{
    let mut lent = Lent { out, count: 0 };
    put_refusal_line(number, place, &mut lent);
    lent.count
}
