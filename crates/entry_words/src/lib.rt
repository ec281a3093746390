// Numbers of the data list, a plant of it, and the scale, in words.
#![tactic(auto)]

ghost use Rattle.std.specs.Prelude.{◌≡◌, ◌≤◌};
ghost use Rattle.sums.specs.Index.{Member, index_of};
ghost use Rattle.model.specs.Data.{table_boxes, place_of, read};
ghost use Rattle.writer.specs.Writing.{room, added};
ghost use Rattle.sentences.specs.Asked.{OfCount, OfEntry};
ghost use Rattle.sentences.specs.Sentences.{entry_words, figure_words, shape_words, scale_words, out_of_range_words, storage_words};

use data_tests::{counts_of, most_count};
use figures::{EntryFigures, entry_figures};
use index_words::{say_counted, say_place};
use model::TABLE_COUNT;
use places::entry_place;
use sentences::say_range;
use sums::Place;
use tables::lists::number_at;
use tables::starts::table_set;
use writer::{Line, ROOM};

// The seven counts, in their order. These names and those below stand beside `MOST_COUNTS` (data_tests) and `TABLE_SETS` (tables): the calls for C read those,
// and have no words.
const COUNT_NAMES: [&str; 7] = [
    "zones", "plants", "fuels", "seasons", "days", "hours", "years",
];

// The tables of the data, by number.
const TABLE_NAMES: [&str; TABLE_COUNT] = [
    "R",
    "V",
    "Dur",
    "minimum-load day",
    "zone",
    "fuel",
    "kind",
    "VRE",
    "GenCap",
    "year",
    "MaxNewCap",
    "OverLoad",
    "ResOffer",
    "RampDn",
    "RampUp",
    "MinCapFac",
    "CapCredit",
    "HeatRate",
    "E",
    "ResCost",
    "Availability",
    "Profile",
    "Annuity",
    "FixedOM",
    "GenCost",
    "Demand",
    "EE",
    "SRes",
    "PRM",
    "TL",
    "Loss",
    "zone cap",
    "system cap",
    "Tax",
    "MaxFuel",
    "BuildLimit",
    "VOLL",
    "SurplusPenalty",
    "RESVoLL",
    "SRESVoLL",
    "Err",
    "MaxCapital",
    "battery",
    "efficiency",
    "energy capacity",
    "line limit",
    "MW per line",
    "line annuity",
];

// An entry's place in the list, table and indices. Its kind and indices are returned.
// Not one function with the rows' and the columns': as `row_words::say_row`.
fn say_entry(line: &mut Line<ROOM>, data: &[u32], entry: usize) -> Place
    requires { OfEntry «data».now entry }
    ensures member { Member (table_boxes (read «data».now).counts) (index_of result) × (place_of (read «data».now).counts (index_of result) ≡ entry) }
    ensures said { line.new ≡ added room line.old (entry_words (read «data».now).counts entry (index_of result)) }
{
    let c = counts_of(data);
    let p = entry_place(c, entry);
    let set = table_set(p.kind);
    line.say_with(b"entry ", entry as u64);
    line.say(b" of DATA, ");
    line.say_name(&TABLE_NAMES, p.kind);
    say_place(line, c, set, p);
    p
}

#[tactic(auto, unfolding(sentences::specs::Sentences::figure_words))]
fn say_figures(line: &mut Line<ROOM>, figures: EntryFigures)
    ensures { line.new ≡ added room line.old (figure_words figures) }
{
    say_range(line, figures.entry, figures.least, figures.most);
}

// An entry out of its range.
pub fn say_out_of_range(line: &mut Line<ROOM>, data: &[u32], entry: usize)
    requires { OfEntry «data».now entry }
    ensures { line.new ≡ added room line.old (out_of_range_words (read «data».now) entry) }
{
    let p = say_entry(line, data, entry);
    let figures = entry_figures(data, p, entry);
    say_figures(line, figures);
}

// A battery with VRE set.
pub fn say_storage(line: &mut Line<ROOM>, plant: usize)
    requires { plant ≤ 1000 }
    ensures { line.new ≡ added room line.old (storage_words plant) }
{
    say_counted(line, b"plant ", plant);
    line.say(b" is a battery and has VRE set");
}

// A count out of its range.
pub fn say_shape(line: &mut Line<ROOM>, data: &[u32], count: usize)
    requires { OfCount «data».now count }
    ensures { line.new ≡ added room line.old (shape_words «data».now count) }
{
    let is = number_at(data, count);
    let most = u64::from(most_count(count));
    line.say_with(b"entry ", count as u64);
    line.say(b" of DATA, the number of ");
    line.say_name(&COUNT_NAMES, count);
    say_range(line, is, 1, most);
}

// N out of its range.
pub fn say_scale(line: &mut Line<ROOM>, scale: u32)
    ensures { line.new ≡ added room line.old (scale_words scale) }
{
    line.say(b"N");
    say_range(line, u64::from(scale), 1, 1000);
}
