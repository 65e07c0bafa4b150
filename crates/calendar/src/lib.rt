// Document 02's hall calendar: the day and clock time of a slot, and the slot of a day and clock time. A time is packed decimal, a
// byte for the hours and one for the minutes, a digit in each four bits: 16:30 is 0x16 and 0x30. Nothing is lent.
#![tactic(auto)]

ghost use Rattle.std.specs.Prelude.{◌≡◌, ◌%◌, ◌<◌, ◌≤◌, MatchOption, get_or};
ghost use Rattle.appointments.specs.Refusals.{told};
ghost use Rattle.calendar.specs.Calendar.{times, number_in, clock_answer, slot_answer};

use appointments::Refusal;

// The sixteen times of a day, the byte of the hours and the byte of the minutes.
const TIMES: [u16; 16] = [
    0x0800, 0x0830, 0x0900, 0x0930, 0x1000, 0x1030, 0x1100, 0x1130, 0x1300, 0x1330, 0x1400, 0x1430,
    0x1500, 0x1530, 0x1600, 0x1630,
];

// A day, and a time of it in two packed bytes.
#[derive(Clone, Copy, Debug, Default, PartialEq, Eq)]
pub struct Moment {
    pub day: u16,
    pub hours: u8,
    pub minutes: u8,
}

// The time numbered by the remainder of s.
fn time_at(s: usize) -> u16
    ensures { result ≡ get_or times (s % 16) 0 }
{
    TIMES[s % 16]
}

// The number of a time among the sixteen.
fn number_of(time: u16) -> Option<usize>
    ensures { MatchOption result (16 ≤ number_in times time) (λ k. (k ≡ number_in times time) × (k < 16)) }
{
    TIMES.iter().position(|t| *t == time)
}

// Slot s lies on day s÷16 rounded down, at the time numbered by the remainder. 23: a slot above 4,095.
pub fn clock(slot: u16) -> Result<Moment, Refusal>
    ensures { told result ≡ clock_answer slot }
{
    if slot > 4095 {
        return Err(Refusal::LateSlot);
    }
    let day = slot / 16;
    let time = time_at(usize::from(slot));
    let [hours, minutes] = time.to_be_bytes();
    Ok(Moment {
        day,
        hours,
        minutes,
    })
}

// The way back. 24: a time not among the sixteen, or a day above 255.
pub fn slot(moment: Moment) -> Result<usize, Refusal>
    ensures { told result ≡ slot_answer moment.day moment.hours moment.minutes }
{
    if moment.day > 255 {
        return Err(Refusal::UnknownTime);
    }
    let time = u16::from_be_bytes([moment.hours, moment.minutes]);
    let k = number_of(time).ok_or(Refusal::UnknownTime)?;
    Ok(16 * usize::from(moment.day) + k)
}
