// Main's cases, over the function that the program calls. Standard input is a table of them: a name, an input, and the bytes that
// document 01 and the Rust ask for, which were written from these two and not taken from what we print. Each is ended by a bar,
// and each case by a line feed. Inputs of more than 4,000 bytes and broken ones are made here. It writes a line for each case, and
// at the end how many were right and how many there were.
#![tactic(auto)]

ghost use Rattle.std.specs.Prelude.{◌≡◌, ◌↔◌, ◌<◌, ◌≤◌, IsTrue, IfSome, length};
ghost use Rattle.text.specs.Text.{text_output};

use reading::Came;
use std::io::Write;

// What came of an input, and what main prints of it.
#[derive(Clone, Copy)]
struct Case<'a> {
    name: &'a [u8],
    came: Came<'a>,
    expected: &'a [u8],
}

impl Case<'_> {
    // Whether main prints the bytes expected.
    fn is_right(&self) -> bool
        ensures { IsTrue result ↔ (text_output self.now.came.broken self.now.came.bytes.now ≡ self.now.expected.now) }
    {
        text::text_output(self.came).as_bytes() == self.expected
    }
}

// How many cases there were, and how many were right.
#[derive(Clone, Copy, Default)]
struct Tally {
    cases: usize,
    right: usize,
}

// Writes the line of a case, and gives whether it is right.
fn tell<W: Write>(out: &mut W, case: Case) -> bool {
    let is_right = case.is_right();
    let _ = out.write_all(case.name);
    let _ = out.write_all(if is_right { b": ok\n" } else { b": differs\n" });
    is_right
}

// The field that the next bar ends, and what stands behind the bar.
fn next_field(table: &[u8]) -> Option<(&[u8], &[u8])>
    ensures { IfSome result (λ r. length r.1.now < length table.now) }
{
    let bar = reading::find(table, b'|')?;
    Some((&table[..bar], &table[bar + 1..]))
}

// The first case of a table, and what stands behind its line feed. A table that breaks off has no further case.
fn next_case(table: &[u8]) -> Option<(Case<'_>, &[u8])>
    ensures { IfSome result (λ r. length r.1.now < length table.now) }
{
    let (name, behind) = next_field(table)?;
    let (bytes, behind) = next_field(behind)?;
    let (expected, behind) = next_field(behind)?;
    let case = Case {
        name,
        came: Came {
            bytes,
            broken: false,
        },
        expected,
    };
    Some((case, behind.get(1..).unwrap_or(&[])))
}

// The cases of the table, one after the other.
fn listed_cases<W: Write>(out: &mut W, table: &[u8]) -> Tally
    ensures { (result.right ≤ result.cases) × (result.cases ≤ length table.now) }
{
    let mut tally = Tally::default();
    let mut rest = table;
    while let Some((case, behind)) = next_case(rest) {
        if tell(out, case) {
            tally.right += 1;
        }
        tally.cases += 1;
        rest = behind;
    }
    tally
}

// An input that begins with some line, goes on with lines `0,1` and fills an array.
fn filled<const N: usize>(first: &[u8]) -> [u8; N] {
    let mut bytes = [0u8; N];
    let line = first.iter().chain(b"0,1\n".iter().cycle());
    for (byte, from) in bytes.iter_mut().zip(line) {
        *byte = *from;
    }
    bytes
}

// The cases made here: 4,097 bytes give 11, whatever they are, and 4,096 don't; a broken input gives the first malformed line among
// those that ended, or else 1 plus the number of line feeds.
fn made_cases<W: Write>(out: &mut W) -> Tally
    ensures { (result.right ≤ result.cases) × (result.cases ≡ 12) }
{
    let most_x = [b'x'; 4096];
    let long_x = [b'x'; 4097];
    let long: [u8; 4097] = filled(b"0002\n");
    let most: [u8; 4096] = filled(b"002\n");
    let unended: [u8; 4096] = filled(b"2\n");
    // name, input, whether it is broken, expected
    let made: [(&[u8], &[u8], bool, &[u8]); 12] = [
        (b"4097 bytes, malformed", &long_x, false, b"refused 11 0\n"),
        (b"4096 bytes, malformed", &most_x, false, b"refused 10 1\n"),
        (b"4097 bytes", &long, false, b"refused 11 0\n"),
        (b"4096 bytes", &most, false, b"refused 8 0\n"),
        (
            b"4096 bytes, line 1025 unended",
            &unended,
            false,
            b"refused 10 1025\n",
        ),
        (b"broken, no bytes", b"", true, b"refused 10 1\n"),
        (b"broken in parties", b"3", true, b"refused 10 1\n"),
        (b"broken, no appointment", b"3\n", true, b"refused 10 2\n"),
        (
            b"broken behind a line",
            b"3\n0,1\n",
            true,
            b"refused 10 3\n",
        ),
        (b"broken in a line", b"3\n0,1\n1,2", true, b"refused 10 3\n"),
        (
            b"broken, a line malformed",
            b"3\n0 1\n1,2\n",
            true,
            b"refused 10 2\n",
        ),
        (b"broken, 4097 bytes", &long_x, true, b"refused 11 0\n"),
    ];
    let mut tally = Tally::default();
    for (name, bytes, broken, expected) in made {
        let case = Case {
            name,
            came: Came { bytes, broken },
            expected,
        };
        if tell(out, case) {
            tally.right += 1;
        }
        tally.cases += 1;
    }
    tally
}

// The stored table is shorter than 65,536 bytes; of a longer one no more are read, and none behind a failed read.
fn main(rt: HostRuntime) {
    let mut table = [0u8; 65_536];
    let came = reading::read_full(&mut rt.stdin(), &mut table, 1);
    let out = &mut rt.stdout();
    let listed = listed_cases(out, came.bytes);
    let made = made_cases(out);
    let _ = println!(rt;
        "{} of {} ok",
        listed.right + made.right,
        listed.cases + made.cases
    );
}
