// The answer to a text: the line of certify, and a line that says it in words.
#![tactic(auto)]

ghost use Rattle.std.specs.Prelude.{◌≡◌};
ghost use Rattle.texts.specs.Format.{frame_at, whole};
ghost use Rattle.texts.specs.Numbers.{lists_in};
ghost use Rattle.answer_words.specs.Asked.{AskedOf};
ghost use Rattle.writer.specs.Writing.{room, added};
ghost use Rattle.explanations.specs.Explained.{answer_words, certified_words, explanation_of, explain_text, Explains};

use answer_line::answer_line;
use answer_words::{Inputs, say_sentence};
use epm::certify;
use model::{Certificate, Refusal};
use plain_words::say_scale_taken;
use text_answers::scale_in;
use text_reader::read_text;
use texts::Numbers;
use writer::{Line, ROOM};

// An answer: its line, and its sentence.
fn say_answer(line: &mut Line<ROOM>, inputs: &Inputs, answer: Result<Certificate, Refusal>)
    requires { AskedOf inputs.now.«data».now inputs.now.plan.now inputs.now.multipliers.now answer }
    ensures { line.new ≡ added room line.old (answer_words inputs.now.«data».now inputs.now.scale inputs.now.plan.now inputs.now.multipliers.now answer) }
{
    answer_line(answer, line);
    say_sentence(line, inputs, answer);
}

// Certify's answer to data, N, plan and multipliers.
fn explain_inputs(line: &mut Line<ROOM>, inputs: &Inputs)
    ensures { line.new ≡ added room line.old (certified_words inputs.now.«data».now inputs.now.scale inputs.now.plan.now inputs.now.multipliers.now) }
{
    let answer = certify(inputs.data, inputs.scale, inputs.plan, inputs.multipliers);
    say_answer(line, inputs, answer);
}

// The same of the numbers of a text, and the scale among them.
fn explain_numbers(line: &mut Line<ROOM>, numbers: &Numbers)
    ensures { line.new ≡ added room line.old (explanation_of (whole (lists_in numbers.now))) }
{
    let inputs = Inputs {
        data: numbers.data.as_slice(),
        scale: scale_in(numbers.scal.as_slice()),
        plan: numbers.plan.as_slice(),
        multipliers: numbers.dual.as_slice(),
    };
    explain_inputs(line, &inputs);
    say_scale_taken(line, numbers.scal.as_slice());
    line.say(b"\n");
}

// The same of a text that has a Frame, at the line of this number. No scale was taken then.
fn explain_frame(line: &mut Line<ROOM>, number: usize)
    ensures { line.new ≡ added room line.old (explanation_of (frame_at number)) }
{
    let none = Inputs {
        data: &[],
        scale: 1,
        plan: &[],
        multipliers: &[],
    };
    say_answer(line, &none, Err(Refusal::Frame(number)));
    line.say(b"\n");
}

// The answer to a whole text, and what it means. A Frame comes before every other refusal.
fn say_explanation(line: &mut Line<ROOM>, input: &[u8])
    ensures { line.new ≡ added room line.old (explain_text input.now) }
{
    let mut numbers = Numbers::new();
    match read_text(input, &mut numbers) {
        Ok(()) => explain_numbers(line, &numbers),
        Err(frame) => explain_frame(line, frame.line),
    }
}

// The same as a line of its own.
pub fn explain_text(input: &[u8]) -> Line<ROOM>
    ensures { Explains input.now result }
{
    let mut line = Line::new();
    say_explanation(&mut line, input);
    line
}
