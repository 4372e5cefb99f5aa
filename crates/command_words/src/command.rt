//! The words on the command line.

ghost use Rattle.std.specs.Prelude.{◌≡◌};
ghost use Rattle.command_words.specs.Settings.{given_by};
ghost use Rattle.command_words.specs.Words.{meaning, alone, cover_of, cover_with, goals_of, replay_of, lrat_of, texts, is_file_name};
ghost use Rattle.command_words.specs.Commands.{subject_named, meaning_of};

use crate::settings::{given_by, options_of, workers_of};
use sim_walk::Options;

/// The files that a circuit and its signals are read from.
#[derive(Clone, Copy, Debug)]
pub struct Subject<'a> {
    pub circuit: &'a [u8],
    pub signals: &'a [u8],
}

/// The files and options of `cover`. One worker does all the work so far, however many may.
#[derive(Clone, Copy, Debug)]
pub struct Cover<'a> {
    pub subject: Subject<'a>,
    pub options: Options,
    pub workers: u32,
}

/// The files of `replay`.
#[derive(Clone, Copy, Debug)]
pub struct Replay<'a> {
    pub subject: Subject<'a>,
    pub witness: &'a [u8],
}

/// The files of `lrat`.
#[derive(Clone, Copy, Debug)]
pub struct Lrat<'a> {
    pub formula: &'a [u8],
    pub proof: &'a [u8],
}

/// What the words ask for.
#[derive(Clone, Copy, Debug)]
pub enum Command<'a> {
    Usage,
    Help,
    Version,
    Cover(Cover<'a>),
    Goals(Subject<'a>),
    Replay(Replay<'a>),
    Lrat(Lrat<'a>),
}

fn is_file_name(word: &[u8]) -> bool
    ensures { result ≡ is_file_name word.now }
{
    match word {
        [] => false,
        [first, ..] => *first != b'-',
    }
}

fn cover_with<'a>(subject: Subject<'a>, words: &[Vec<u8>]) -> Command<'a>
    ensures { meaning_of result ≡ cover_with (subject_named subject.entry) (given_by (texts words.now)) }
{
    match given_by(words) {
        None => Command::Usage,
        Some(given) => Command::Cover(Cover {
            subject,
            options: options_of(&given),
            workers: workers_of(&given),
        }),
    }
}

fn cover_of(words: &[Vec<u8>]) -> Command<'_>
    ensures { meaning_of result ≡ cover_of (texts words.now) }
{
    if let [circuit, signals, rest @ ..] = words {
        if is_file_name(circuit) && is_file_name(signals) {
            return cover_with(Subject { circuit, signals }, rest);
        }
    }
    Command::Usage
}

fn goals_of(words: &[Vec<u8>]) -> Command<'_>
    ensures { meaning_of result ≡ goals_of (texts words.now) }
{
    if let [circuit, signals] = words {
        if is_file_name(circuit) && is_file_name(signals) {
            return Command::Goals(Subject { circuit, signals });
        }
    }
    Command::Usage
}

fn replay_of(words: &[Vec<u8>]) -> Command<'_>
    ensures { meaning_of result ≡ replay_of (texts words.now) }
{
    if let [circuit, signals, witness] = words {
        if is_file_name(circuit) && is_file_name(signals) && is_file_name(witness) {
            return Command::Replay(Replay {
                subject: Subject { circuit, signals },
                witness: witness.as_slice(),
            });
        }
    }
    Command::Usage
}

fn lrat_of(words: &[Vec<u8>]) -> Command<'_>
    ensures { meaning_of result ≡ lrat_of (texts words.now) }
{
    if let [formula, proof] = words {
        if is_file_name(formula) && is_file_name(proof) {
            return Command::Lrat(Lrat {
                formula: formula.as_slice(),
                proof: proof.as_slice(),
            });
        }
    }
    Command::Usage
}

fn alone(command: &[u8], words: &[Vec<u8>]) -> Command<'static>
    ensures { meaning_of result ≡ alone command.now (texts words.now) }
{
    match words {
        [] if command == b"--help".as_slice() => Command::Help,
        [] if command == b"--version".as_slice() => Command::Version,
        [] => Command::Usage,
        [_, ..] => Command::Usage,
    }
}

pub fn command_of(words: &[Vec<u8>]) -> Command<'_>
    ensures { meaning_of result ≡ meaning (texts words.now) }
{
    let [command, rest @ ..] = words else {
        return Command::Usage;
    };
    if command.as_slice() == b"cover".as_slice() {
        cover_of(rest)
    } else if command.as_slice() == b"goals".as_slice() {
        goals_of(rest)
    } else if command.as_slice() == b"replay".as_slice() {
        replay_of(rest)
    } else if command.as_slice() == b"lrat".as_slice() {
        lrat_of(rest)
    } else {
        alone(command, rest)
    }
}
