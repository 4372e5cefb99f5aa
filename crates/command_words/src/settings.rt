//! The options of `cover` on the command line.

ghost use Rattle.std.specs.Prelude.{◌≡◌, ◌≤◌, ◌∷◌, length, None, Some, IfSome};
ghost use Rattle.text_words.specs.Numbers.{decimal_number_of};
ghost use Rattle.command_words.specs.Settings.{setting_of, scale_of, is_given, with_given, given_number, is_built, is_on, with_switch, given_switch, given_after, given_by, options_of, workers_of};
ghost use Rattle.command_words.specs.Words.{texts};
ghost use Rattle.command_words.specs.Commands.{given_from};

use sim_walk::Options;
use text_words::decimal_number;

/// An option that a number follows.
#[derive(Clone, Copy, Debug, PartialEq, Eq)]
pub(crate) enum Setting {
    Depth,
    Batches,
    Length,
    Stall,
    Hop,
    Seed,
    Lemmas,
    Strength,
    Rounds,
    Workers,
}

/// An option that stands alone.
#[derive(Clone, Copy, Debug, PartialEq, Eq)]
pub(crate) enum Switch {
    Proofs,
}

/// The option that a word names.
#[derive(Clone, Copy, Debug, PartialEq, Eq)]
pub(crate) enum Named {
    Numbered(Setting),
    Bare(Switch),
}

/// The numbers that an option takes, and the number of one that isn't given.
#[derive(Clone, Copy, Debug, PartialEq, Eq)]
pub(crate) struct Scale {
    pub least: u64,
    pub greatest: u64,
    pub unset: u64,
}

/// What the options were given.
#[derive(Clone, Copy, Debug, PartialEq, Eq)]
pub(crate) struct Given {
    pub depth: Option<u32>,
    pub batches: Option<u32>,
    pub length: Option<u32>,
    pub stall: Option<u32>,
    pub hop: Option<u32>,
    pub seed: Option<u64>,
    pub lemmas: Option<u64>,
    pub strength: Option<u32>,
    pub rounds: Option<u32>,
    pub workers: Option<u32>,
    pub proofs: bool,
}

/// What the options were given so far, and the words that are left.
#[derive(Clone, Copy, Debug)]
pub(crate) struct Taken<'a> {
    pub given: Given,
    pub rest: &'a [Vec<u8>],
}

const NOTHING: Given = Given {
    depth: None,
    batches: None,
    length: None,
    stall: None,
    hop: None,
    seed: None,
    lemmas: None,
    strength: None,
    rounds: None,
    workers: None,
    proofs: false,
};

fn setting_of(name: &[u8]) -> Option<Named>
    ensures { result ≡ setting_of name.now }
{
    if name == b"--depth".as_slice() {
        Some(Named::Numbered(Setting::Depth))
    } else if name == b"--batches".as_slice() {
        Some(Named::Numbered(Setting::Batches))
    } else if name == b"--length".as_slice() {
        Some(Named::Numbered(Setting::Length))
    } else if name == b"--stall".as_slice() {
        Some(Named::Numbered(Setting::Stall))
    } else if name == b"--hop".as_slice() {
        Some(Named::Numbered(Setting::Hop))
    } else if name == b"--seed".as_slice() {
        Some(Named::Numbered(Setting::Seed))
    } else if name == b"--lemmas".as_slice() {
        Some(Named::Numbered(Setting::Lemmas))
    } else if name == b"--strength".as_slice() {
        Some(Named::Numbered(Setting::Strength))
    } else if name == b"--rounds".as_slice() {
        Some(Named::Numbered(Setting::Rounds))
    } else if name == b"--workers".as_slice() {
        Some(Named::Numbered(Setting::Workers))
    } else if name == b"--proofs".as_slice() {
        Some(Named::Bare(Switch::Proofs))
    } else {
        None
    }
}

fn scale_from(least: u64, greatest: u64, unset: u64) -> Scale
    ensures least { result.least ≡ least }
    ensures greatest { result.greatest ≡ greatest }
    ensures unset { result.unset ≡ unset }
{
    Scale {
        least,
        greatest,
        unset,
    }
}

fn scale_of(setting: Setting) -> Scale
    ensures { result ≡ scale_of setting }
{
    match setting {
        Setting::Depth => scale_from(0, 200, 10),
        Setting::Batches => scale_from(0, 16, 2),
        Setting::Strength => scale_from(0, 2, 2),
        Setting::Length => scale_from(1, 100_000, 1000),
        Setting::Stall => scale_from(1, 100_000, 100),
        Setting::Hop => scale_from(0, 50, 4),
        Setting::Seed => scale_from(0, u64::MAX, 1),
        Setting::Lemmas => scale_from(1, 1_000_000, 20_000),
        Setting::Rounds => scale_from(0, 0, 0),
        Setting::Workers => scale_from(1, 8, 4),
    }
}

fn is_given(given: &Given, setting: Setting) -> bool
    ensures { result ≡ is_given given.now setting }
{
    match setting {
        Setting::Depth => given.depth.is_some(),
        Setting::Batches => given.batches.is_some(),
        Setting::Length => given.length.is_some(),
        Setting::Stall => given.stall.is_some(),
        Setting::Hop => given.hop.is_some(),
        Setting::Seed => given.seed.is_some(),
        Setting::Lemmas => given.lemmas.is_some(),
        Setting::Strength => given.strength.is_some(),
        Setting::Rounds => given.rounds.is_some(),
        Setting::Workers => given.workers.is_some(),
    }
}

fn with_given(given: Given, setting: Setting, n: u64) -> Given
    requires { n ≤ (scale_of setting).greatest }
    ensures { result ≡ with_given given setting n }
{
    let mut given = given;
    match setting {
        Setting::Depth => given.depth = Some(n as u32),
        Setting::Batches => given.batches = Some(n as u32),
        Setting::Length => given.length = Some(n as u32),
        Setting::Stall => given.stall = Some(n as u32),
        Setting::Hop => given.hop = Some(n as u32),
        Setting::Seed => given.seed = Some(n),
        Setting::Lemmas => given.lemmas = Some(n),
        Setting::Strength => given.strength = Some(n as u32),
        Setting::Rounds => given.rounds = Some(n as u32),
        Setting::Workers => given.workers = Some(n as u32),
    }
    given
}

fn given_number(given: Given, setting: Setting, value: &[u8]) -> Option<Given>
    ensures { result ≡ given_number given setting (decimal_number_of value.now) }
{
    let n = decimal_number(value)?;
    let scale = scale_of(setting);
    if is_given(&given, setting) {
        None
    } else if scale.least <= n && n <= scale.greatest {
        Some(with_given(given, setting, n))
    } else {
        None
    }
}

/// Whether the program does what the switch asks for.
fn is_built(switch: Switch) -> bool
    ensures { result ≡ is_built switch }
{
    match switch {
        Switch::Proofs => true,
    }
}

fn is_on(given: &Given, switch: Switch) -> bool
    ensures { result ≡ is_on given.now switch }
{
    match switch {
        Switch::Proofs => given.proofs,
    }
}

fn with_switch(given: Given, switch: Switch) -> Given
    ensures { result ≡ with_switch given switch }
{
    match switch {
        Switch::Proofs => Given {
            proofs: true,
            ..given
        },
    }
}

fn given_switch(given: Given, switch: Switch) -> Option<Given>
    ensures { result ≡ given_switch given switch }
{
    if is_built(switch) && !is_on(&given, switch) {
        Some(with_switch(given, switch))
    } else {
        None
    }
}

/// Takes the number that follows a setting's name.
fn number_taken(given: Given, setting: Setting, words: &[Vec<u8>]) -> Option<Taken<'_>>
    ensures value { given_from result ≡ given_after (Some given) (Some setting) (texts words.now) }
    ensures left { IfSome result (λ t. length t.rest.now ≤ length words.now) }
{
    let [value, rest @ ..] = words else {
        return None;
    };
    let given = given_number(given, setting, value)?;
    Some(Taken { given, rest })
}

/// Takes an option: its name, and the number that follows it, if one does.
fn option_taken<'a>(given: Given, name: &[u8], words: &'a [Vec<u8>]) -> Option<Taken<'a>>
    ensures value { given_from result ≡ given_after (Some given) None (name.now ∷ texts words.now) }
    ensures left { IfSome result (λ t. length t.rest.now ≤ length words.now) }
{
    match setting_of(name)? {
        Named::Numbered(setting) => number_taken(given, setting, words),
        Named::Bare(switch) => {
            let given = given_switch(given, switch)?;
            Some(Taken { given, rest: words })
        }
    }
}

/// What words that are options give.
pub(crate) fn given_by(words: &[Vec<u8>]) -> Option<Given>
    ensures { result ≡ given_by (texts words.now) }
{
    let mut given = NOTHING;
    let mut rest = words;
    while let [name, more @ ..] = rest {
        let taken = option_taken(given, name, more)?;
        given = taken.given;
        rest = taken.rest;
    }
    Some(given)
}

/// The numbers of the options; one that wasn't given has the table's.
pub(crate) fn options_of(given: &Given) -> Options
    ensures { result ≡ options_of given.now }
{
    Options {
        depth: given.depth.unwrap_or(unset(Setting::Depth)),
        batches: given.batches.unwrap_or(unset(Setting::Batches)),
        length: given.length.unwrap_or(unset(Setting::Length)),
        stall: given.stall.unwrap_or(unset(Setting::Stall)),
        hop: given.hop.unwrap_or(unset(Setting::Hop)),
        seed: given.seed.unwrap_or(scale_of(Setting::Seed).unset),
        lemmas: given.lemmas.unwrap_or(scale_of(Setting::Lemmas).unset),
        strength: given.strength.unwrap_or(unset(Setting::Strength)),
        rounds: given.rounds.unwrap_or(unset(Setting::Rounds)),
        proofs: given.proofs,
    }
}

pub(crate) fn workers_of(given: &Given) -> u32
    ensures { result ≡ workers_of given.now }
{
    given.workers.unwrap_or(unset(Setting::Workers))
}

/// The number of an option that isn't given, of which there are none past 32 bits.
fn unset(setting: Setting) -> u32
    ensures { result ≡ (scale_of setting).unset }
{
    scale_of(setting).unset as u32
}
