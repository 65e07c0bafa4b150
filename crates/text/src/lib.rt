// Main as one function from the bytes that came of its input to the bytes of its output. The program around it only reads and
// writes.
#![tactic(auto)]

ghost use Rattle.std.specs.Prelude.{◌≡◌, MatchResult};
ghost use Rattle.appointments.specs.Refusals.{refusal_number, refusal_place};
ghost use Rattle.printing.specs.Printing.{refused};
ghost use Rattle.text.specs.Text.{report, text_output};

use appointments::Refusal;
use arrayvec::ArrayString;
use reading::Came;

// The plan's lines, or why there are none. Here are the 4,096 slot entries and 16,384 scratch words that main lends.
fn plan_output(came: Came<'_>) -> Result<ArrayString<1801>, Refusal>
    ensures { MatchResult result (λ lines. lines.bytes ≡ text_output came.entry.broken came.entry.bytes.now) (λ r. report came.entry.broken came.entry.bytes.now ≡ refused (refusal_number r) (refusal_place r)) }
{
    if 4096 < came.bytes.len() {
        return Err(Refusal::LongInput);
    }
    let mut list = [0u16; 4096];
    let read = reading::read_input(came, &mut list)?;
    let list = &list[..read.count];
    let mut slots = [0u16; 4096];
    let mut scratch = [0u32; 16384];
    let d = planning::bipartite_edge_color(read.parties, list, &mut slots, &mut scratch)?;
    let mut lines = ArrayString::new();
    printing::put_plan_lines(read.parties, list, d, &slots, &mut lines);
    Ok(lines)
}

// Main on what came of any input. This asks nothing of its caller: an input of more than 4,096 bytes is refused, a list that is
// read from no more has at most 4,096 numbers, and main never prints more than 1,801 bytes.
pub fn text_output(came: Came<'_>) -> ArrayString<1801>
    ensures { result.bytes ≡ text_output came.entry.broken came.entry.bytes.now }
{
    match plan_output(came) {
        Ok(lines) => lines,
        Err(refusal) => {
            let mut line = ArrayString::new();
            printing::put_refusal_line(refusal.number() as usize, refusal.place(), &mut line);
            line
        }
    }
}
