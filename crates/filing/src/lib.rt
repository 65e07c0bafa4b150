// Document 01's filed plan: writing it as bytes, and reading it back.
#![tactic(auto)]

ghost use Rattle.std.specs.Prelude.{◌≡◌, ◌+◌, ◌*◌, ◌/◌, ◌<◌, ◌≤◌, length, get_or};
ghost use Rattle.words.specs.Words.{filled};
ghost use Rattle.appointments.specs.Refusals.{told};
ghost use Rattle.filing.specs.Filed.{numbers_of, filed_bytes, filed_rows, rows_list, rows_slots, writing_answer, writing_output, reading_answer, reading_list, reading_slots};
ghost use Rattle.filing.specs.Buffers.{put_number, put_numbers, take_row, take_slot};

use appointments::Refusal;

// What a filed plan begins with: P and A.
#[derive(Clone, Copy, Debug, Default, PartialEq, Eq)]
pub struct Header {
    pub parties: u16,
    pub appointments: usize,
}

// The two bytes of a number, low byte first.
fn put_bytes(output: &mut [u8], at: usize, w: u16)
    requires { at + 1 < length output.old }
    ensures { output.new ≡ put_number output.old at w }
{
    output[at..at + 2].copy_from_slice(&w.to_le_bytes());
}

// The bytes of an appointment: its first end, second end and slot.
fn put_appointment(output: &mut [u8], i: usize, first: u16, second: u16, slot: u16)
    requires { 6 * i + 9 < length output.old }
    ensures { output.new ≡ put_numbers output.old i first second slot }
{
    let at = 6 * i + 4;
    put_bytes(output, at, first);
    put_bytes(output, at + 2, second);
    put_bytes(output, at + 4, slot);
}

// The whole plan, where there is room for it.
fn put_plan(p: u16, list: &[u16], slots: &[u16], output: &mut [u8])
    requires few { length list.now / 2 ≤ 4096 }
    requires slot_room { length list.now / 2 ≤ length slots.now }
    requires room { 6 * (length list.now / 2) + 4 ≤ length output.old }
    ensures { output.new ≡ filled (filed_bytes p list.now slots.now) (6 * (length list.now / 2) + 4) output.old }
{
    let count = list.len() / 2;
    put_bytes(output, 0, p);
    put_bytes(output, 2, count as u16);
    for (i, (&[first, second], &slot)) in list.as_chunks::<2>().0.iter().zip(slots).enumerate() {
        put_appointment(output, i, first, second, slot);
    }
}

// Writing checks 1, 2, 3, 7, 13, and gives its length.
pub fn file_plan(p: u16, list: &[u16], slots: &[u16], output: &mut [u8]) -> Result<usize, Refusal>
    ensures answer { told result ≡ writing_answer p list.now slots.now output.old }
    ensures bytes { output.new ≡ writing_output p list.now slots.now output.old }
{
    checking::check_parties(usize::from(p))?;
    checking::check_even(list)?;
    let count = list.len() / 2;
    checking::check_count(count)?;
    checking::check_slots(slots.len(), count)?;
    let length = 6 * count + 4;
    if output.len() < length {
        return Err(Refusal::ShortOutput);
    }
    put_plan(p, list, slots, output);
    Ok(length)
}

// The 16-bit number at a place, counted in numbers, of the bytes, low byte first.
fn number_at(bytes: &[u8], k: usize) -> u16
    requires { k < length bytes.now / 2 }
    ensures { result ≡ get_or (numbers_of bytes.now) k 0 }
{
    u16::from_le_bytes([bytes[2 * k], bytes[2 * k + 1]])
}

// The appointment at a position of the filed plan goes to the list and to the slots.
fn take_appointment(bytes: &[u8], i: usize, list: &mut [u16], slots: &mut [u16])
    requires i_in_bounds { 6 * i + 9 < length bytes.now }
    requires room { (2 * i + 1 < length list.old) × (i < length slots.old) }
    ensures list { list.new ≡ take_row bytes.now i list.old }
    ensures slots { slots.new ≡ take_slot bytes.now i slots.old }
{
    list[2 * i] = number_at(bytes, 3 * i + 2);
    list[2 * i + 1] = number_at(bytes, 3 * i + 3);
    slots[i] = number_at(bytes, 3 * i + 4);
}

// All appointments of the filed plan, where there is room for them.
fn take_plan(bytes: &[u8], count: usize, list: &mut [u16], slots: &mut [u16])
    requires whole { length bytes.now ≡ 6 * count + 4 }
    requires room { (2 * count ≤ length list.old) × (count ≤ length slots.old) }
    ensures list { list.new ≡ filled (rows_list (filed_rows bytes.now)) (2 * count) list.old }
    ensures slots { slots.new ≡ filled (rows_slots (filed_rows bytes.now)) count slots.old }
{
    for i in 0..count {
        take_appointment(bytes, i, list, slots);
    }
}

// Reading checks 12 (length not 4+6×A, or under 4), 1, 3, 13 (list or slots), and gives P and A.
pub fn read_plan(bytes: &[u8], list: &mut [u16], slots: &mut [u16]) -> Result<Header, Refusal>
    ensures answer { told result ≡ reading_answer bytes.now list.old slots.old }
    ensures list { list.new ≡ reading_list bytes.now list.old slots.old }
    ensures slots { slots.new ≡ reading_slots bytes.now list.old slots.old }
{
    if bytes.len() < 4 {
        return Err(Refusal::WrongLength);
    }
    let parties = number_at(bytes, 0);
    let appointments = usize::from(number_at(bytes, 1));
    if bytes.len() != 6 * appointments + 4 {
        return Err(Refusal::WrongLength);
    }
    checking::check_parties(usize::from(parties))?;
    checking::check_count(appointments)?;
    if list.len() < 2 * appointments || slots.len() < appointments {
        return Err(Refusal::ShortOutput);
    }
    take_plan(bytes, appointments, list, slots);
    Ok(Header {
        parties,
        appointments,
    })
}
