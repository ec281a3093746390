// Figures in words; specs/ has what is said of a row, a column, an entry or a count with its figures, or of a plant.
// A row, a column and an entry have the number that the answer gives; their indices, and a plant, are counted from 1.
#![tactic(auto)]

ghost use Rattle.std.specs.Prelude.{◌≡◌};
ghost use Rattle.writer.specs.Writing.{room, added};
ghost use Rattle.sentences.specs.Sentences.{amount_words, balance_words, signed_words, range_words, length_words};

use capped::Sum;
use compared::{Balance, NoBalance};
use duals::Multiplier;
use writer::{Line, ROOM};

// A sum, or that it is above the limit.
#[tactic(auto, unfolding(crate::specs::Sentences::amount_words))]
pub fn say_amount(line: &mut Line<ROOM>, amount: Sum)
    ensures { line.new ≡ added room line.old (amount_words amount) }
{
    match amount {
        Some(v) => line.say_number(v),
        None => line.say(b"more than 2^62 - 1"),
    }
}

// By how much a column is underpriced. The last two arms are never reached: of an underpriced column the figure is there (the law `short-is` of `figures`).
#[tactic(auto, unfolding(crate::specs::Sentences::balance_words))]
pub fn say_balance(line: &mut Line<ROOM>, balance: Balance)
    ensures { line.new ≡ added room line.old (balance_words balance) }
{
    match balance {
        Ok(v) => line.say_number(v),
        Err(NoBalance::BelowZero) => line.say(b"nothing"),
        Err(NoBalance::Unsure) => line.say(b"an unknown amount"),
    }
}

// A signed number, by its sizes above zero and below.
#[tactic(auto, unfolding(crate::specs::Sentences::signed_words))]
pub fn say_signed(line: &mut Line<ROOM>, m: Multiplier)
    ensures { line.new ≡ added room line.old (signed_words m) }
{
    if m.down > 0 {
        line.say_with(b"-", m.down);
    } else {
        line.say_number(m.up);
    }
}

// A number, and the least and the most that it may be.
pub fn say_range(line: &mut Line<ROOM>, value: u64, least: u64, most: u64)
    ensures { line.new ≡ added room line.old (range_words value least most) }
{
    line.say_with(b": it is ", value);
    line.say_with(b" and must be from ", least);
    line.say_with(b" to ", most);
}

// How many numbers a list has, and how many it must have.
pub fn say_lengths(line: &mut Line<ROOM>, list: &[u8], has: usize, must: usize)
    ensures { line.new ≡ added room line.old (length_words list.now has must) }
{
    line.say(list);
    line.say_with(b" has ", has as u64);
    line.say_with(b" numbers and must have ", must as u64);
}
