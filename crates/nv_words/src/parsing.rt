//! The words behind a program's name, by the first of them.
ghost use Rattle.std.specs.Prelude.{◌≡◌, [], ◌∷◌, Some, None, Err, IfOk, map, string_bytes};
ghost use Rattle.nv_words.specs.Words.{command_of, look_in, load_in, run_in, sched_in};
ghost use Rattle.nv_words.specs.declared.words.WordsError.TheVariants.{Usage};

use crate::numbers::{LARGEST, parse_number};
use crate::parser::{parse_options, run_parser, sched_parser};
use crate::words::{Command, WordsError};
use nv_load::Load;
use std::alloc::Global;

/// The command that words are: `recover` alone, `run`, `sched` or `look` with its options, or `gen` with its load.
#[tactic(auto, unfolding(crate::specs::Words::command_of))]
pub fn parse_command(alloc: Global, words: &[String]) -> Result<Command, WordsError>
    ensures command { IfOk result (λ command. command_of (map string_bytes words.now) ≡ Some command) }
    ensures usage { result ≡ Err Usage → command_of (map string_bytes words.now) ≡ None }
{
    match words {
        [first, ..] if first.as_str() == "run" => parse_run(alloc, words),
        [first, ..] if first.as_str() == "sched" => parse_sched(alloc, words),
        [only] if only.as_str() == "recover" => Ok(Command::Recover),
        [first, options @ ..] if first.as_str() == "look" => parse_look(options),
        [first, load @ ..] if first.as_str() == "gen" => parse_load(load),
        _ => Err(WordsError::Usage),
    }
}

// The run that these words ask for, of which the first is `run`.
fn parse_run(alloc: Global, words: &[String]) -> Result<Command, WordsError>
    ensures command { IfOk result (λ command. run_in (map string_bytes words.now) ≡ Some command) }
    ensures usage { result ≡ Err Usage → run_in (map string_bytes words.now) ≡ None }
{
    let parser = run_parser(alloc)?;
    let options = parse_options(parser, words)?;
    Ok(Command::Run(options))
}

// The schedule that these words ask for, of which the first is `sched`.
fn parse_sched(alloc: Global, words: &[String]) -> Result<Command, WordsError>
    ensures command { IfOk result (λ command. sched_in (map string_bytes words.now) ≡ Some command) }
    ensures usage { result ≡ Err Usage → sched_in (map string_bytes words.now) ≡ None }
{
    let parser = sched_parser(alloc)?;
    let options = parse_options(parser, words)?;
    Ok(Command::Sched(options))
}

// The look that these words ask for: `--files` alone, or no word.
fn parse_look(options: &[String]) -> Result<Command, WordsError>
    ensures command { IfOk result (λ command. look_in (map string_bytes options.now) ≡ Some command) }
    ensures usage { result ≡ Err Usage → look_in (map string_bytes options.now) ≡ None }
{
    match options {
        [] => Ok(Command::Look { files: false }),
        [only] if only.as_str() == "--files" => Ok(Command::Look { files: true }),
        _ => Err(WordsError::Usage),
    }
}

// The load that these words ask for: a seed, how many calls, and by how many threads.
fn parse_load(words: &[String]) -> Result<Command, WordsError>
    ensures command { IfOk result (λ command. load_in (map string_bytes words.now) ≡ Some command) }
    ensures usage { result ≡ Err Usage → load_in (map string_bytes words.now) ≡ None }
{
    match words {
        [seed, calls, threads] => load_of(seed.as_str(), calls.as_str(), threads.as_str()),
        _ => Err(WordsError::Usage),
    }
}

// The load that three words are, where each is a number that it may be.
fn load_of(seed: &str, calls: &str, threads: &str) -> Result<Command, WordsError>
    ensures command { IfOk result (λ command. load_in (seed.now ∷ calls.now ∷ threads.now ∷ []) ≡ Some command) }
    ensures usage { result ≡ Err Usage → load_in (seed.now ∷ calls.now ∷ threads.now ∷ []) ≡ None }
{
    let seed = parse_number(seed, 0, LARGEST).ok_or(WordsError::Usage)?;
    let calls = parse_number(calls, 0, 100_000).ok_or(WordsError::Usage)?;
    let threads = parse_number(threads, 1, 8).ok_or(WordsError::Usage)?;
    Ok(Command::Gen(Load {
        seed,
        calls,
        threads,
    }))
}
