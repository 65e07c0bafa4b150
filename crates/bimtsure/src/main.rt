// The program: reads standard input, and writes to standard output what the text crate makes of it. The contracts are those for any
// reader and any writer; what standard input gives and standard output takes no contract can say (docs/PROVED.md says what is
// trusted).
#![tactic(auto)]

ghost use Rattle.std.specs.Prelude.{OnOk};
ghost use Rattle.bimtsure.specs.Answering.{Answers};

use std::io;
use std::io::{Read, Write};

// Main between a reader and a writer: what came of the one, and main's output of it to the other. A million failed reads break the
// input off.
fn answer_input<R: Read, W: Write>(reader: &mut R, writer: &mut W) -> io::Result<()>
    ensures { OnOk result (Answers (R.remaining reader.old) (R.remaining reader.new) (W.contents writer.old) (W.contents writer.new)) }
{
    let mut input = [0u8; 4097];
    let output = text::text_output(reading::read_full(reader, &mut input, 1_000_000));
    writer.write_all(output.as_bytes())
}

fn main(rt: HostRuntime) {
    let answered = answer_input(&mut rt.stdin(), &mut rt.stdout());
    if answered.is_err() {
        let _ = eprintln!(rt; "bimtsure: the output can't be written");
    }
}
