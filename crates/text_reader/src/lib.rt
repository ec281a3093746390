// A whole text, line by line, read into lent lists.
#![tactic(auto)]

ghost use Rattle.std.specs.Prelude.{◌≡◌};
ghost use Rattle.texts.specs.Format.{lines, read_lines};
ghost use Rattle.texts.specs.Numbers.{lists_in};
ghost use Rattle.text_reader.specs.Reading.{text_in};

use texts::Numbers;

// The first line of a text that is none of the format, or brings more numbers than may come: its number, from 1.
#[derive(Clone, Copy, Debug, PartialEq, Eq)]
pub struct Frame {
    pub line: usize,
}

// The numbers of all lines, each behind those that its word's list holds.
// The lists are lent and not handed back: they take 57 KB, and each place that holds them by value takes as much stack once more.
pub fn read_text(text: &[u8], numbers: &mut Numbers) -> Result<(), Frame>
    ensures { text_in result numbers.new ≡ read_lines (lines text.now) 1 (lists_in numbers.old) }
{
    for (before, bytes) in text.split_inclusive(|&b| b == b'\n').enumerate() {
        let frame = Frame { line: before + 1 };
        let line = bytes.strip_suffix(b"\n").ok_or(frame)?;
        numbers.read_line(line).ok_or(frame)?;
    }
    Ok(())
}
