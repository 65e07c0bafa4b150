// What came of an input, and what main reads of it: the line of P, then a line for each appointment.
#![tactic(auto)]

ghost use Rattle.std.specs.Prelude.{◌≡◌, ◌≢◌, ◌+◌, ◌<◌, ◌≤◌, false, length, set, take, drop, slice_index, Some, IfSome, unwrap_or, option_map, EachIndex, MatchOption};
ghost use Rattle.std.specs.Io.KnownBytes.{Consumes, IsAtEnd};
ghost use Rattle.words.specs.Ascii.{line_feed};
ghost use Rattle.reading.specs.Reading.{parts, digits_value, number, end_of, appointment_of, read_lines, read_text, read_input};
ghost use Rattle.reading.specs.Told.{FirstAt, ends_of, ended_line, ReadAs};

use appointments::{BLANK, Refusal};
use std::io::Read;

// The two ends of a line.
#[derive(Clone, Copy)]
struct Ends {
    first: u16,
    second: u16,
}

// P, and how many numbers the list has.
#[derive(Clone, Copy, Debug, PartialEq, Eq)]
pub struct ReadInput {
    pub parties: u16,
    pub count: usize,
}

// What came of an input: its bytes, and whether it is broken, that is, reading was given up before the input's end was seen.
#[derive(Clone, Copy)]
pub struct Came<'a> {
    pub bytes: &'a [u8],
    pub broken: bool,
}

// One read into the buffer from where the bytes end, which stay: how many bytes it gave, 0 at the end of the input; or nothing where
// it failed, and then nothing of the input was taken.
fn read_piece<R: Read>(reader: &mut R, buffer: &mut [u8], from: usize) -> Option<usize>
    requires { from < length buffer.old }
    ensures inside { IfSome result (λ n. from + n ≤ length buffer.old) }
    ensures front { take from buffer.new ≡ take from buffer.old }
    ensures bytes { Consumes (R.remaining reader.old) (R.remaining reader.new) (take (unwrap_or result 0) (drop from buffer.new)) }
    ensures end { result ≡ Some 0 → IsAtEnd (R.remaining reader.new) }
{
    reader.read(&mut buffer[from..]).ok()
}

// Reads until the input ends or the buffer is full, however few bytes come at a time. A read may fail for a while, by a signal or
// since the next bytes aren't there yet, so it is tried again; after as many failed reads in all as there are tries the input is
// broken. What is given is all that was taken, none left out; and where the input isn't broken and the buffer isn't full, that is
// all of the input. No clause says how often it tries: one that gave up at once, and said so, would meet them.
pub fn read_full<'a, R: Read>(reader: &mut R, buffer: &'a mut [u8], tries: usize) -> Came<'a>
    ensures inside { length result.bytes.now ≤ length buffer.old }
    ensures bytes { Consumes (R.remaining reader.old) (R.remaining reader.new) result.bytes.now }
    ensures all { result.broken ≡ false → length result.bytes.now < length buffer.old → IsAtEnd (R.remaining reader.new) }
{
    let mut count = 0;
    let mut tries_left = tries;
    while count < buffer.len() && 0 < tries_left {
        match read_piece(reader, buffer, count) {
            Some(0) => break,
            Some(n) => count += n,
            None => tries_left -= 1,
        }
    }
    Came {
        bytes: &buffer[..count],
        broken: tries_left == 0,
    }
}

// The first place of a separator.
pub fn find(bytes: &[u8], separator: u8) -> Option<usize>
    ensures { MatchOption result (EachIndex bytes.now (λ k. slice_index bytes.now k ≢ separator)) (λ i. FirstAt separator bytes.now i) }
{
    bytes.iter().position(|byte| *byte == separator)
}

// The value of at most five digits.
fn digits_in(bytes: &[u8]) -> Option<usize>
    requires { length bytes.now ≤ 5 }
    ensures { result ≡ digits_value 0 bytes.now }
{
    let mut v = 0;
    for byte in bytes {
        if !byte.is_ascii_digit() {
            return None;
        }
        v = 10 * v + usize::from(*byte - b'0');
    }
    Some(v)
}

// A number has 1 to 5 digits and is below 65,535.
#[tactic(auto, unfolding(crate::specs::Reading::number))]
fn number_in(bytes: &[u8]) -> Option<u16>
    ensures { result ≡ number bytes.now }
{
    if bytes.is_empty() || 5 < bytes.len() {
        return None;
    }
    let v = digits_in(bytes)?;
    u16::try_from(v).ok().filter(|v| *v < BLANK)
}

// An end may be empty and is then blank.
#[tactic(auto, using(crate::proofs::ReadingLaws::end_number), unfolding(crate::specs::Reading::end_of))]
fn end_in(bytes: &[u8]) -> Option<u16>
    ensures { result ≡ end_of bytes.now }
{
    if bytes.is_empty() {
        return Some(BLANK);
    }
    number_in(bytes)
}

// A line has two ends, parted by one comma.
fn ends_in(line: &[u8]) -> Option<Ends>
    ensures { result ≡ option_map ends_of (appointment_of line.now) }
{
    let comma = find(line, b',')?;
    let back = &line[comma + 1..];
    if find(back, b',').is_some() {
        return None;
    }
    let first = end_in(&line[..comma])?;
    let second = end_in(back)?;
    Some(Ends { first, second })
}

// The ends of a line that a line feed ends.
fn ended_line(line: &[u8]) -> Option<Ends>
    ensures { result ≡ option_map ends_of (ended_line line.now) }
{
    match line {
        [ends @ .., b'\n'] => ends_in(ends),
        _ => None,
    }
}

// The two ends of an appointment go to their places in the list.
fn put_ends(list: &mut [u16], at: usize, ends: Ends)
    requires { at + 1 < length list.old }
    ensures { list.new ≡ set (set list.old at ends.first) (at + 1) ends.second }
{
    list[at..at + 2].copy_from_slice(&[ends.first, ends.second]);
}

// The lines behind the first, into the list.
fn read_lines(parties: u16, bytes: &[u8], list: &mut [u16]) -> Result<ReadInput, Refusal>
    requires { length bytes.now ≤ length list.old }
    ensures { ReadAs (read_lines parties 2 (parts line_feed bytes.now)) result list.old list.new }
{
    let mut count = 0;
    for line in bytes.split_inclusive(|byte| *byte == b'\n') {
        let ends = ended_line(line).ok_or(Refusal::MalformedLine(count / 2 + 2))?;
        put_ends(list, count, ends);
        count += 2;
    }
    Ok(ReadInput { parties, count })
}

// Main's input: P and, in the first numbers of the list, the list; or the first malformed line. The list has two numbers for
// each line and a line two bytes at least, so a list as long as the input is long enough.
fn read_text(input: &[u8], list: &mut [u16]) -> Result<ReadInput, Refusal>
    requires { length input.now ≤ length list.old }
    ensures { ReadAs (read_text input.now) result list.old list.new }
{
    let end = find(input, b'\n').ok_or(Refusal::MalformedLine(1))?;
    let parties = number_in(&input[..end]).ok_or(Refusal::MalformedLine(1))?;
    read_lines(parties, &input[end + 1..], list)
}

// The same of what came of an input that may be broken: no list is read of a broken one. Where its lines are all well formed, each
// but the first gave two numbers of the list, and it broke off in the line behind them.
pub fn read_input(came: Came<'_>, list: &mut [u16]) -> Result<ReadInput, Refusal>
    requires { length came.bytes.now ≤ length list.old }
    ensures { ReadAs (read_input came.entry.broken came.entry.bytes.now) result list.old list.new }
{
    let read = read_text(came.bytes, list)?;
    if came.broken {
        return Err(Refusal::MalformedLine(read.count / 2 + 2));
    }
    Ok(read)
}
