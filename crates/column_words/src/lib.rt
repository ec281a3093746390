// Columns in words.
#![tactic(auto)]

ghost use Rattle.std.specs.Prelude.{◌≡◌, ◌<◌};
ghost use Rattle.sums.specs.Span.{fine};
ghost use Rattle.sums.specs.Index.{count, index_of};
ghost use Rattle.model.specs.Data.{read};
ghost use Rattle.model.specs.Columns.{column_boxes};
ghost use Rattle.model.specs.Tests.{data_fault};
ghost use Rattle.places.specs.Numbers.{Numbered};
ghost use Rattle.writer.specs.Writing.{room, added};
ghost use Rattle.sentences.specs.Asked.{OfColumn};
ghost use Rattle.sentences.specs.Sentences.{column_words, priced_words, column_off_scale_words, underpriced_words};

use data_tests::counts_of;
use figures::{ColumnFigures, column_figures};
use index_words::say_place;
use model::COLUMN_KIND_COUNT;
use places::column_place;
use sentences::{say_amount, say_balance};
use sums::Place;
use tables::starts::column_set;
use writer::{Line, ROOM};

// The tables of the plan's columns, by number. A table beside `COLUMN_SETS` (tables): the calls for C stand on that crate, and have no words.
const COLUMN_NAMES: [&str; COLUMN_KIND_COUNT] = [
    "cap",
    "build",
    "retire",
    "gen",
    "reserve",
    "trans",
    "unmet",
    "surplus",
    "spinshort",
    "firmshort",
    "charge",
    "level",
    "built",
    "total",
];

// A column's number, table and indices. Its kind and indices are returned.
// Not one function with the rows' and the entries': as `row_words::say_row`.
fn say_column(line: &mut Line<ROOM>, data: &[u32], column: usize) -> Place
    requires { (data_fault «data».now ≡ fine) × (column < count (column_boxes (read «data».now).counts)) }
    ensures member { Numbered (column_boxes (read «data».now).counts) column result }
    ensures said { line.new ≡ added room line.old (column_words (read «data».now).counts column (index_of result)) }
{
    let c = counts_of(data);
    let p = column_place(c, column);
    let set = column_set(p.kind);
    line.say_with(b"column ", column as u64);
    line.say(b", ");
    line.say_name(&COLUMN_NAMES, p.kind);
    say_place(line, c, set, p);
    p
}

// What a column's terms of each sign come to, and its price.
fn say_priced(line: &mut Line<ROOM>, sums: ColumnFigures)
    ensures { line.new ≡ added room line.old (priced_words sums) }
{
    line.say(b": its terms m*a come to ");
    say_amount(line, sums.up);
    line.say(b" above zero and ");
    say_amount(line, sums.down);
    line.say(b" below, its price is ");
    say_amount(line, sums.price);
}

// A column of which a sum of terms is too large.
// `data, multipliers` come singly, here and below: each sentence is handed what it reads, and `answer_words::Inputs` would hand it N and the plan too.
// `OfColumn` has `data_fault` ≡ fine, not the tables: a refusal comes back without them, so explain has bare lists, and `column_figures` lays them out again.
pub fn say_column_off_scale(line: &mut Line<ROOM>, data: &[u32], multipliers: &[i64], column: usize)
    requires { OfColumn «data».now multipliers.now column }
    ensures { line.new ≡ added room line.old (column_off_scale_words (read «data».now) multipliers.now column) }
{
    let p = say_column(line, data, column);
    let sums = column_figures(data, multipliers, p);
    say_priced(line, sums);
    line.say(b", and neither sum of terms may be more than 2^62 - 1");
}

// A column that is not priced well, and how far.
pub fn say_underpriced(line: &mut Line<ROOM>, data: &[u32], multipliers: &[i64], column: usize)
    requires { OfColumn «data».now multipliers.now column }
    ensures { line.new ≡ added room line.old (underpriced_words (read «data».now) multipliers.now column) }
{
    let p = say_column(line, data, column);
    let sums = column_figures(data, multipliers, p);
    say_priced(line, sums);
    line.say(b", so it is underpriced by ");
    say_balance(line, sums.short);
}
