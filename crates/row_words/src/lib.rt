// Rows in words.
#![tactic(auto)]

ghost use Rattle.std.specs.Prelude.{◌≡◌, ◌<◌};
ghost use Rattle.sums.specs.Span.{fine};
ghost use Rattle.sums.specs.Index.{count, index_of};
ghost use Rattle.model.specs.Data.{read};
ghost use Rattle.model.specs.Columns.{entries};
ghost use Rattle.model.specs.Families.{row_boxes};
ghost use Rattle.model.specs.Tests.{data_fault};
ghost use Rattle.places.specs.Numbers.{Numbered};
ghost use Rattle.writer.specs.Writing.{room, added};
ghost use Rattle.sentences.specs.Asked.{OfRow, OfMultiplier};
ghost use Rattle.sentences.specs.Sentences.{equation_words, row_words, sums_words, off_scale_words, broken_words, multiplier_words};

use data_tests::counts_of;
use duals::multiplier_in;
use figures::row_figures;
use index_words::say_place;
use model::FAMILY_COUNT;
use places::row_place;
use row_sums::Sides;
use sentences::{say_amount, say_signed};
use sums::Place;
use tables::sets::family_at;
use writer::{Line, ROOM};

// The families of rows, by number. A table beside `FAMILIES` (tables): document 01 names the three fields of that one, and the calls for C have no words.
const FAMILY_NAMES: [&str; FAMILY_COUNT] = [
    "demand balance",
    "transfer limit",
    "spinning reserve",
    "planning reserve",
    "output and reserve",
    "reserve offer",
    "ramp down",
    "ramp up",
    "minimum load",
    "availability",
    "VRE profile",
    "capacity balance",
    "capacity outside its years",
    "build and retirement by kind",
    "new capacity",
    "yearly build",
    "fuel",
    "capital",
    "zone emissions",
    "system emissions",
    "battery level",
    "charge limit",
    "charge rise",
    "charge fall",
    "level limit",
    "line balance",
    "new lines",
    "lines both ways",
];

// A family's equation number in the source; a family that has none there is told by its name alone.
#[tactic(auto, unfolding(sentences::specs::Sentences::equation_words))]
fn say_equation(line: &mut Line<ROOM>, equation: u32)
    ensures { line.new ≡ added room line.old (equation_words equation) }
{
    if equation == 0 {
        line.say(b", ");
    } else {
        line.say_with(b", equation (", u64::from(equation));
        line.say(b") ");
    }
}

// A row's number, equation with its name, and indices. Its kind and indices are returned.
// Not one function with `say_column` and `say_entry`: they have no equation between number and name, and each has its index set from another table.
fn say_row(line: &mut Line<ROOM>, data: &[u32], row: usize) -> Place
    requires { (data_fault «data».now ≡ fine) × (row < count (row_boxes (read «data».now).counts)) }
    ensures member { Numbered (row_boxes (read «data».now).counts) row result }
    ensures said { line.new ≡ added room line.old (row_words (read «data».now).counts row (index_of result)) }
{
    let c = counts_of(data);
    let p = row_place(c, row);
    let f = family_at(p.kind);
    line.say_with(b"row ", row as u64);
    say_equation(line, f.equation);
    line.say_name(&FAMILY_NAMES, p.kind);
    say_place(line, c, f.set, p);
    p
}

// What a row's terms of each sign come to.
fn say_sums(line: &mut Line<ROOM>, sums: Sides)
    ensures { line.new ≡ added room line.old (sums_words sums) }
{
    line.say(b": its positive terms come to ");
    say_amount(line, sums.above);
    line.say(b", its negative terms to ");
    say_amount(line, sums.below);
}

// A row of which a sum is too large.
// `data, scale, plan` and `data, multipliers` come singly: each sentence is handed what it reads, and `answer_words::Inputs` would hand each all four.
// `OfRow` has `data_fault` ≡ fine, not the tables: a refusal comes back without them, so explain has the bare lists, and `row_figures` lays them out again.
pub fn say_off_scale(line: &mut Line<ROOM>, data: &[u32], scale: u32, plan: &[u32], row: usize)
    requires { OfRow «data».now plan.now row }
    ensures { line.new ≡ added room line.old (off_scale_words (read «data».now) scale (entries (read «data».now) plan.now) row) }
{
    let p = say_row(line, data, row);
    let sums = row_figures(data, scale, plan, p);
    say_sums(line, sums);
    line.say(b", and neither may be more than 2^62 - 1");
}

// A row that fails.
pub fn say_broken(line: &mut Line<ROOM>, data: &[u32], scale: u32, plan: &[u32], row: usize)
    requires { OfRow «data».now plan.now row }
    ensures { line.new ≡ added room line.old (broken_words (read «data».now) scale (entries (read «data».now) plan.now) row) }
{
    let p = say_row(line, data, row);
    let f = family_at(p.kind);
    let sums = row_figures(data, scale, plan, p);
    say_sums(line, sums);
    line.say_either(
        f.equal,
        b", and the two must be equal",
        b", and the first must not be less",
    );
}

// A row whose multiplier is out of range. `data, multipliers` come singly, as above.
pub fn say_multiplier(line: &mut Line<ROOM>, data: &[u32], multipliers: &[i64], row: usize)
    requires { OfMultiplier «data».now multipliers.now row }
    ensures { line.new ≡ added room line.old (multiplier_words (read «data».now) multipliers.now row) }
{
    let p = say_row(line, data, row);
    let f = family_at(p.kind);
    line.say(b": it is ");
    say_signed(line, multiplier_in(multipliers, row));
    line.say_either(
        f.equal,
        b" and must be from -2^40 to 2^40",
        b" and must be from 0 to 2^40",
    );
}
