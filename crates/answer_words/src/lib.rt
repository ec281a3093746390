// An answer of certify in words: its sentence.
#![tactic(auto)]

ghost use Rattle.std.specs.Prelude.{◌≡◌};
ghost use Rattle.writer.specs.Writing.{room, added};
ghost use Rattle.answer_words.specs.Asked.{Asked, AskedOf};
ghost use Rattle.answer_words.specs.Answers.{body_words, refused_words, sentence};

use codes::code_of;
use column_words::{say_column_off_scale, say_underpriced};
use entry_words::{say_out_of_range, say_scale, say_shape, say_storage};
use model::{Certificate, Refusal};
use plain_words::{say_accepted, say_frame};
use row_words::{say_broken, say_multiplier, say_off_scale};
use sentences::say_lengths;
use writer::{Line, ROOM};

// What certify was given.
#[derive(Clone, Copy, Debug)]
pub struct Inputs<'a> {
    pub data: &'a [u32],
    pub scale: u32,
    pub plan: &'a [u32],
    pub multipliers: &'a [i64],
}

// The words of the refusals, by number; there is no refusal 0. They stand in the order of the numbers of documents 01 and 02, as `refusal_names` has them,
// and the number is what the certify program prints: a `match` would name each case of `Refusal` a third time,
// after `code_of` and `say_body`; the table needs the number alone.
const REFUSAL_NAMES: [&str; 17] = [
    "",
    "Shape",
    "Data length",
    "Entry",
    "Scale",
    "Plan length",
    "Row off scale",
    "Broken",
    "Cost off scale",
    "Multiplier count",
    "Multiplier",
    "Column off scale",
    "Underpriced",
    "Gap off scale",
    "Board",
    "Frame",
    "Storage",
];

// The place of a refusal, and its figures.
#[tactic(auto, unfolding(crate::specs::Answers::body_words))]
fn say_body(line: &mut Line<ROOM>, inputs: &Inputs, refusal: Refusal)
    requires { Asked inputs.now.«data».now inputs.now.plan.now inputs.now.multipliers.now refusal }
    ensures { line.new ≡ added room line.old (body_words inputs.now.«data».now inputs.now.scale inputs.now.plan.now inputs.now.multipliers.now refusal) }
{
    let Inputs {
        data,
        scale,
        plan,
        multipliers,
    } = *inputs;
    match refusal {
        Refusal::Shape(count) => say_shape(line, data, count),
        Refusal::DataLength(numbers) => say_lengths(line, b"DATA", data.len(), numbers),
        Refusal::Entry(entry) => say_out_of_range(line, data, entry),
        Refusal::Scale => say_scale(line, scale),
        Refusal::PlanLength(columns) => say_lengths(line, b"PLAN", plan.len(), columns),
        Refusal::RowOffScale(large) => say_off_scale(line, data, scale, plan, large),
        Refusal::Broken(row) => say_broken(line, data, scale, plan, row),
        Refusal::CostOffScale => line.say(b"the cost is more than 2^62 - 1"),
        Refusal::MultiplierCount(rows) => say_lengths(line, b"DUAL", multipliers.len(), rows),
        Refusal::Multiplier(multiplier) => say_multiplier(line, data, multipliers, multiplier),
        Refusal::ColumnOffScale(wide) => say_column_off_scale(line, data, multipliers, wide),
        Refusal::Underpriced(column) => say_underpriced(line, data, multipliers, column),
        Refusal::GapOffScale => line.say(b"a sum of the terms N*m*k is more than 2^62 - 1"),
        Refusal::Board => line.say(
            b"the year is none of the plan's, or the board has too few places",
        ), // never reached: certify does not answer 14 (the law `refused-asked`)
        Refusal::Frame(number) => say_frame(line, number),
        Refusal::Storage(plant) => say_storage(line, plant),
    }
}

// A refusal: its word, its place and its figures.
fn say_refusal(line: &mut Line<ROOM>, inputs: &Inputs, refusal: Refusal)
    requires { Asked inputs.now.«data».now inputs.now.plan.now inputs.now.multipliers.now refusal }
    ensures { line.new ≡ added room line.old (refused_words inputs.now.«data».now inputs.now.scale inputs.now.plan.now inputs.now.multipliers.now refusal) }
{
    let code = code_of(refusal);
    line.say_name(&REFUSAL_NAMES, code.number as usize);
    line.say(b": ");
    say_body(line, inputs, refusal);
}

// The sentence of an answer, without its line feed.
#[tactic(auto, unfolding(crate::specs::Answers::sentence))]
pub fn say_sentence(line: &mut Line<ROOM>, inputs: &Inputs, answer: Result<Certificate, Refusal>)
    requires { AskedOf inputs.now.«data».now inputs.now.plan.now inputs.now.multipliers.now answer }
    ensures { line.new ≡ added room line.old (sentence inputs.now.«data».now inputs.now.scale inputs.now.plan.now inputs.now.multipliers.now answer) }
{
    match answer {
        Ok(certificate) => say_accepted(line, certificate.cost, certificate.gap),
        Err(refusal) => say_refusal(line, inputs, refusal),
    }
}
