// The hall calendar's calls for C and Rust: numbers in, a struct of numbers out. Each entry only turns the answer into numbers, and
// says that they are the definitions', for acceptance and for every refusal. host/include/bimtsure_calendar.h declares them.
#![tactic(auto)]

ghost use Rattle.std.specs.Prelude.{◌≡◌};
ghost use Rattle.appointments.specs.Answers.{number_of, place_of, figure_of};
ghost use Rattle.calendar.specs.Calendar.{clock_answer, day_of, hours_of, minutes_of, slot_answer};

use appointments::Numbers;
use calendar::Moment;

// Number, place, the day, and the time in packed decimal; the figures of a refusal are 0, here and below.
#[repr(C)]
#[derive(Drop)]
pub struct BimtsureClock {
    pub number: u32,
    pub place: u32,
    pub day: u32,
    pub hours: u32,
    pub minutes: u32,
}

// Number, place, and the slot.
#[repr(C)]
#[derive(Drop)]
pub struct BimtsureSlot {
    pub number: u32,
    pub place: u32,
    pub slot: u32,
}

// The day and clock time of a slot.
#[unsafe(no_mangle)]
pub extern "C" fn bimtsure_clock(slot: u16) -> BimtsureClock
    ensures number { result.number ≡ number_of (clock_answer slot) }
    ensures place { result.place ≡ place_of (clock_answer slot) }
    ensures day { result.day ≡ day_of (clock_answer slot) }
    ensures hours { result.hours ≡ hours_of (clock_answer slot) }
    ensures minutes { result.minutes ≡ minutes_of (clock_answer slot) }
{
    let clock = Numbers::of(calendar::clock(slot), Moment::default());
    BimtsureClock {
        number: clock.number,
        place: clock.place as u32,
        day: u32::from(clock.figures.day),
        hours: u32::from(clock.figures.hours),
        minutes: u32::from(clock.figures.minutes),
    }
}

// The slot of a day and a clock time in packed decimal.
#[unsafe(no_mangle)]
pub extern "C" fn bimtsure_slot(day: u16, hours: u8, minutes: u8) -> BimtsureSlot
    ensures number { result.number ≡ number_of (slot_answer day hours minutes) }
    ensures place { result.place ≡ place_of (slot_answer day hours minutes) }
    ensures slot { result.slot ≡ figure_of (slot_answer day hours minutes) }
{
    let moment = Moment {
        day,
        hours,
        minutes,
    };
    let slot = Numbers::of(calendar::slot(moment), 0);
    BimtsureSlot {
        number: slot.number,
        place: slot.place as u32,
        slot: slot.figures as u32,
    }
}
