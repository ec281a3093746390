// The lines of the certify program's text input, and the numbers that they bring.
#![tactic(auto)]

ghost use Rattle.std.specs.Prelude.{◌≡◌, Some};
ghost use Rattle.std.specs.Option.{option_and};
ghost use Rattle.texts.specs.Format.{no_lists, add_line};
ghost use Rattle.texts.specs.Numbers.{lists_in};

pub mod lines;

pub use crate::lines::Word;
use crate::lines::{join, word_of};
use arrayvec::ArrayVec;

// The most numbers of each word on all its lines.
pub const MOST_DATA: usize = 4096;

pub const MOST_PLAN: usize = 2048;

pub const MOST_SCAL: usize = 1;

pub const MOST_DUAL: usize = 4096;

// The numbers of each word that the lines of a text have brought.
#[derive(Clone, Debug, Default, PartialEq, Eq, Drop)]
pub struct Numbers {
    pub data: ArrayVec<u32, MOST_DATA>,
    pub plan: ArrayVec<u32, MOST_PLAN>,
    pub scal: ArrayVec<u32, MOST_SCAL>,
    pub dual: ArrayVec<i64, MOST_DUAL>,
}

impl Numbers {
    // Before the first line.
    pub fn new() -> Self
        ensures { lists_in result ≡ no_lists }
    {
        Self::default()
    }

    // Adds the numbers of a line to those of its word's earlier lines; none where the line is a Frame.
    #[tactic(auto, unfolding(crate::specs::Format::add_line, crate::specs::Format::line_of))]
    pub fn read_line(&mut self, line: &[u8]) -> Option<()>
        ensures { option_and result (Some (lists_in self.new)) ≡ add_line line.now (lists_in self.old) }
    {
        match word_of(line)? {
            Word::Data => join(&mut self.data, line),
            Word::Plan => join(&mut self.plan, line),
            Word::Scal => join(&mut self.scal, line),
            Word::Dual => join(&mut self.dual, line),
        }
    }
}
