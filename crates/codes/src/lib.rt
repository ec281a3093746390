// Answers in the numbers of documents 01 and 02: 0 with cost and gap, or a refusal's number and place.
#![tactic(auto)]

ghost use Rattle.std.specs.Prelude.{◌≡◌};
ghost use Rattle.model.specs.Calls.{code, code_of, answer_code, certificate_code};

use model::{Certificate, Code, Refusal};

// A code with a place; no refusal has a second figure.
fn at(number: u32, place: usize) -> Code
    ensures { result ≡ code number place 0 }
{
    Code {
        number,
        first: place as u64,
        second: 0,
    }
}

// The number and the place of a refusal, by the definitions' word for it. No `From`: both types are `model`'s, so it could stand in `model` alone, which holds
// types and definitions and no function.
#[tactic(auto, unfolding(model::specs::Calls::code_of))]
pub fn code_of(refusal: Refusal) -> Code
    ensures { result ≡ code_of refusal }
{
    match refusal {
        Refusal::Shape(count) => at(1, count),
        Refusal::DataLength(numbers) => at(2, numbers),
        Refusal::Entry(entry) => at(3, entry),
        Refusal::Scale => at(4, 0),
        Refusal::PlanLength(columns) => at(5, columns),
        Refusal::RowOffScale(large) => at(6, large),
        Refusal::Broken(row) => at(7, row),
        Refusal::CostOffScale => at(8, 0),
        Refusal::MultiplierCount(rows) => at(9, rows),
        Refusal::Multiplier(multiplier) => at(10, multiplier),
        Refusal::ColumnOffScale(wide) => at(11, wide),
        Refusal::Underpriced(column) => at(12, column),
        Refusal::GapOffScale => at(13, 0),
        Refusal::Board => at(14, 0),
        Refusal::Frame(line) => at(15, line),
        Refusal::Storage(plant) => at(16, plant),
    }
}

// What check and post answer. This and `certificate_code` are two: the definitions have two, of answers of two types.
#[tactic(auto, unfolding(model::specs::Calls::answer_code))]
pub fn answer_code(answer: Result<u64, Refusal>) -> Code
    ensures { result ≡ answer_code answer }
{
    match answer {
        Ok(cost) => Code {
            number: 0,
            first: cost,
            second: 0,
        },
        Err(refusal) => code_of(refusal),
    }
}

// What certify answers.
#[tactic(auto, unfolding(model::specs::Calls::certificate_code))]
pub fn certificate_code(answer: Result<Certificate, Refusal>) -> Code
    ensures { result ≡ certificate_code answer }
{
    match answer {
        Ok(certificate) => Code {
            number: 0,
            first: certificate.cost,
            second: certificate.gap,
        },
        Err(refusal) => code_of(refusal),
    }
}
