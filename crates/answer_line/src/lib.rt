// The answer of certify as a line of text: `A cost gap` or `R number place` in decimal, and a line feed.
#![tactic(auto)]

ghost use Rattle.std.specs.Prelude.{◌≡◌, ◌≤◌, length};
ghost use Rattle.writer.specs.Writing.{added};
ghost use Rattle.answer_line.specs.Line.{line_with, line_of};

use model::{Certificate, Refusal};
use writer::Line;

// A letter and two numbers, each after a space, and a line feed. A number of 64 bits has at most 20 digits, so they are at most 44 bytes.
fn put_text<const SIZE: usize>(line: &mut Line<SIZE>, letter: u8, first: u64, second: u64)
    ensures said { line.new ≡ added SIZE line.old (line_with letter first second) }
    ensures short { length (line_with letter first second) ≤ 44 }
{
    line.say(&[letter]);
    line.say_with(b" ", first);
    line.say_with(b" ", second);
    line.say(b"\n");
}

// Adds the answer's line, which has at most 44 bytes.
#[tactic(auto, unfolding(crate::specs::Line::line_of))]
pub fn answer_line<const SIZE: usize>(answer: Result<Certificate, Refusal>, line: &mut Line<SIZE>)
    ensures said { line.new ≡ added SIZE line.old (line_of answer) }
    ensures short { length (line_of answer) ≤ 44 }
{
    match answer {
        Ok(certificate) => put_text(line, b'A', certificate.cost, certificate.gap),
        Err(refusal) => {
            let code = codes::code_of(refusal);
            put_text(line, b'R', u64::from(code.number), code.first)
        }
    }
}
