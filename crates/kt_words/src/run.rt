//! The words of a run: `run`, and behind it the options.
ghost use Rattle.std.specs.Prelude.{◌≡◌, ◌≢◌, ◌≤◌, IfOk, IsErrOf, map, option_map};
ghost use Rattle.clap.specs.Words.{app_of, found_of, first_value};
ghost use Rattle.kt_words.specs.declared.run.WordsNo.TheVariants as no;
ghost use Rattle.kt_words.specs.Words.{run_app, number_or, settings_by, begins_run, ends_options, settings_in};

use crate::number::number_said;
use clap::error::ErrorKind;
use clap::{Arg, ArgAction, ArgMatches, Command};
use std::alloc::{AllocError, Global};
use thiserror::Error;

/// How many workers pick jobs, and how many cells the pool has.
#[derive(Clone, Copy, PartialEq, Eq)]
pub struct Settings {
    pub workers: u32,
    pub cells: u32,
}

/// Why the words say nothing.
#[derive(Clone, Copy, Debug, PartialEq, Eq, Error)]
pub enum WordsNo {
    #[error("the words are not in the form")]
    Form,
    #[error("out of memory")]
    Memory,
}

impl From<AllocError> for WordsNo {
    ghost from_gives = { λ _ e. e ≡ no.Memory };

    fn from(_: AllocError) -> Self {
        WordsNo::Memory
    }
}

/// The most workers, and none where no word says it.
const WORKERS_MOST: u32 = 4;

/// The fewest and the most cells of a pool, and how many it has where no word says it.
const CELLS_LEAST: u32 = 1024;

const CELLS_MOST: u32 = 4_194_304;

const CELLS: u32 = 262_144;

// The command with its two options.
fn run_command<'a>(alloc: Global) -> Result<Command<'a>, AllocError>
    ensures { IfOk result (λ command. app_of command ≡ run_app) }
{
    let workers = Arg::new(alloc, "workers")
        .long("workers")
        .action(ArgAction::Set);
    let pool = Arg::new(alloc, "pool").long("pool").action(ArgAction::Set);
    Command::new(alloc, "run").arg(workers)?.arg(pool)
}

// The number of an option, or the one that stands for none.
fn number_or(text: Option<&str>, without: u32, least: u32, most: u32) -> Option<u32>
    requires { most ≤ 4194304 }
    ensures { result ≡ number_or without least most (option_map (λ t. t.now) text.entry) }
{
    match text {
        Some(text) => number_said(text.as_bytes(), least, most),
        None => Some(without),
    }
}

// What the matches of the command say.
fn settings_of(matches: &ArgMatches) -> Option<Settings>
    ensures { result ≡ settings_by (first_value (found_of matches.now)) }
{
    let workers = number_or(matches.get_str("workers"), 0, 0, WORKERS_MOST)?;
    let cells = number_or(matches.get_str("pool"), CELLS, CELLS_LEAST, CELLS_MOST)?;
    Some(Settings { workers, cells })
}

// Whether a word ends the options. That is outside the form, and `clap` would take it.
fn ends_options(words: &[&str]) -> bool
    ensures { result ≡ ends_options (map (λ w. w.now) words.now) }
{
    for word in words {
        if *word == "--" {
            return true;
        }
    }
    false
}

fn begins_run(words: &[&str]) -> bool
    ensures { result ≡ begins_run (map (λ w. w.now) words.now) }
{
    match words {
        [first, ..] => *first == "run",
        [] => false,
    }
}

// Why words that were refused say nothing: they are outside the form, unless memory was wanting.
fn reason_of(kind: ErrorKind) -> WordsNo
    ensures { result ≡ WordsNo.Form → kind ≢ ErrorKind.OutOfMemory }
{
    match kind {
        ErrorKind::OutOfMemory => WordsNo::Memory,
        _ => WordsNo::Form,
    }
}

/// What the words say: `run`, and behind it at most once each `--workers` and `--pool` with one to ten digits, in the next word
/// or behind `=`.
pub fn read_words(alloc: Global, words: &[&str]) -> Result<Settings, WordsNo>
    ensures settings { IfOk result (λ s. settings_in (map (λ w. w.now) words.now) ≡ Some s) }
    ensures form { IsErrOf result WordsNo.Form → settings_in (map (λ w. w.now) words.now) ≡ None }
{
    if !begins_run(words) || ends_options(words) {
        return Err(WordsNo::Form);
    }
    match run_command(alloc)?.try_get_matches_from(words) {
        Ok(matches) => settings_of(&matches).ok_or(WordsNo::Form),
        Err(no) => Err(reason_of(no.kind())),
    }
}
