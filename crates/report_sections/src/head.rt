//! The head of a report, and its last line.

ghost use Rattle.std.specs.Prelude.{◌≡◌};
ghost use Rattle.report_text.specs.Form.{FitsOptions};
ghost use Rattle.report_text.specs.Text.{options_words};
ghost use Rattle.report_lines.specs.Reading.{Gives, line_read};
ghost use Rattle.report_sections.specs.Pieces.{Reads, one};
ghost use Rattle.report_sections.specs.Head.{title_of, three_of, size_of, end_of, flag_of, options_of};
ghost use Rattle.report_sections.specs.HeadLines.{FitsSize, size_words, FitsCounts, end_words, IsVersion, title_words};

use report_lines::{
    LineWords, ReportFault, TextLines, behind_name, count_in, last, take_number, take_small,
};
use sim_walk::Options;

/// The numbers of the size line.
#[derive(Clone, Copy, Debug, PartialEq, Eq)]
pub struct Size {
    pub inputs: u32,
    pub latches: u32,
    pub signals: u32,
}

/// The counts of the last line.
#[derive(Clone, Copy, Debug, PartialEq, Eq)]
pub struct Counts {
    pub reached: u32,
    pub unreachable: u32,
    pub unsettled: u32,
}

fn title_in(words: LineWords<'_>) -> Option<u32>
    ensures { result ≡ title_of words.entry }
{
    let version = count_in(b"ketch", words)?;
    if version == 1 { Some(version) } else { None }
}

/// The numbers of a line with this name and three numbers.
fn three_in(name: &[u8], words: LineWords<'_>) -> Option<(u32, u32, u32)>
    ensures { result ≡ three_of name.now words.entry }
{
    let mut words = behind_name(name, words)?;
    let first = take_small(&mut words)?;
    let second = take_small(&mut words)?;
    let third = take_small(&mut words)?;
    last((first, second, third), words)
}

fn size_in(words: LineWords<'_>) -> Option<Size>
    ensures { result ≡ size_of words.entry }
{
    let (inputs, latches, signals) = three_in(b"size", words)?;
    Some(Size {
        inputs,
        latches,
        signals,
    })
}

fn end_in(words: LineWords<'_>) -> Option<Counts>
    ensures { result ≡ end_of words.entry }
{
    let (reached, unreachable, unsettled) = three_in(b"end", words)?;
    Some(Counts {
        reached,
        unreachable,
        unsettled,
    })
}

fn flag(word: &[u8]) -> Option<bool>
    ensures { result ≡ flag_of word.now }
{
    match word {
        b"0" => Some(false),
        b"1" => Some(true),
        _ => None,
    }
}

fn options_in(words: LineWords<'_>) -> Option<Options>
    ensures { result ≡ options_of words.entry }
{
    let mut words = behind_name(b"options", words)?;
    let depth = take_small(&mut words)?;
    let batches = take_small(&mut words)?;
    let length = take_small(&mut words)?;
    let stall = take_small(&mut words)?;
    let hop = take_small(&mut words)?;
    let seed = take_number(&mut words)?;
    let lemmas = take_number(&mut words)?;
    let strength = take_small(&mut words)?;
    let rounds = take_small(&mut words)?;
    let proofs = flag(words.next()?)?;
    let options = Options {
        depth,
        batches,
        length,
        stall,
        hop,
        seed,
        lemmas,
        strength,
        rounds,
        proofs,
    };
    last(options, words)
}

/// The version of the format.
pub fn read_title(lines: &mut TextLines<'_>) -> Result<u32, ReportFault>
    ensures gives { Gives result lines.new (line_read title_of lines.old) }
    ensures reads { Reads IsVersion (one title_words) lines.old result lines.new }
{
    let version = title_in(lines.words());
    lines.settle(version)
}

/// The line of the size.
pub fn read_size(lines: &mut TextLines<'_>) -> Result<Size, ReportFault>
    ensures gives { Gives result lines.new (line_read size_of lines.old) }
    ensures reads { Reads FitsSize (one size_words) lines.old result lines.new }
{
    let size = size_in(lines.words());
    lines.settle(size)
}

/// The line of the options.
pub fn read_options(lines: &mut TextLines<'_>) -> Result<Options, ReportFault>
    ensures gives { Gives result lines.new (line_read options_of lines.old) }
    ensures reads { Reads FitsOptions (one options_words) lines.old result lines.new }
{
    let options = options_in(lines.words());
    lines.settle(options)
}

/// The last line.
pub fn read_end(lines: &mut TextLines<'_>) -> Result<Counts, ReportFault>
    ensures gives { Gives result lines.new (line_read end_of lines.old) }
    ensures reads { Reads FitsCounts (one end_words) lines.old result lines.new }
{
    let counts = end_in(lines.words());
    lines.settle(counts)
}
