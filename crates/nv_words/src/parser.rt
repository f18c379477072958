//! The options of a run and of a schedule, read by `clap`.
ghost use Rattle.std.specs.Prelude.{◌≡◌, ◌≢◌, true, false, [], Some, None, Err, IfOk, fold, map, string_bytes};
ghost use Rattle.std.specs.List.{list_any};
ghost use Rattle.clap.specs.Words.{app_of, fault_of, found_of, is_simple_and_free, rows_of, matches_of as rows_in, rule_of, with_rule};
ghost use Rattle.nv_words.specs.Words.{is_dashes, noworker_rule, option_rule, options_behind, run_app, sched_app};
ghost use Rattle.nv_words.specs.declared.words.WordsError.TheVariants.{Usage};

use crate::options::options_of;
use crate::words::{RunOptions, WordsError};
use clap::error::ErrorKind;
use clap::{Arg, ArgAction, ArgMatches, Command as Parser};
use std::alloc::{AllocError, Global};

// The options with a value, of a run and of a schedule.
const RUN_OPTIONS: &[&str] = &[
    "page", "entries", "cache", "batch", "pages", "stop", "image",
];

const SCHED_OPTIONS: &[&str] = &["page", "entries", "cache", "batch", "pages", "image"];

// The options behind a command's word. `clap` takes what stands behind `--` for no option, so that word is refused before.
pub(crate) fn parse_options<'a>(
    parser: Parser<'a>,
    words: &'a [String],
) -> Result<RunOptions, WordsError>
    requires { is_simple_and_free (app_of parser) ≡ true }
    ensures options { IfOk result (λ options. options_behind (app_of parser.entry) (map string_bytes words.now) ≡ Some options) }
    ensures usage { result ≡ Err Usage → options_behind (app_of parser.entry) (map string_bytes words.now) ≡ None }
{
    if has_dashes(words) {
        return Err(WordsError::Usage);
    }
    let matches = parse_words(parser, words)?;
    options_of(&matches).ok_or(WordsError::Usage)
}

// One of the words is `--`.
fn has_dashes(words: &[String]) -> bool
    ensures { result ≡ list_any (λ word. is_dashes (string_bytes word)) words.now }
{
    words.iter().any(|word| word.as_str() == "--")
}

// What `clap` makes of words.
#[tactic(auto, using(crate::proofs::WordLemmas::free_is_simple))]
fn parse_words<'a>(parser: Parser<'a>, words: &'a [String]) -> Result<ArgMatches<'a>, WordsError>
    requires { is_simple_and_free (app_of parser) ≡ true }
    ensures taken { IfOk result (λ matches. (rows_of (found_of matches) ≡ rows_in (app_of parser.entry) (map string_bytes words.now))
        × (fault_of (app_of parser.entry) (map string_bytes words.now) ≡ [])) }
    ensures refused { result ≡ Err Usage → fault_of (app_of parser.entry) (map string_bytes words.now) ≢ [] }
{
    match parser.try_get_matches_from(words) {
        Ok(matches) => Ok(matches),
        Err(error) if error.kind() == ErrorKind::OutOfMemory => Err(WordsError::NoMemory),
        Err(_) => Err(WordsError::Usage),
    }
}

// The options of a run. A word that asks for help is one that it doesn't know.
pub(crate) fn run_parser<'a>(alloc: Global) -> Result<Parser<'a>, AllocError>
    ensures { IfOk result (λ parser. app_of parser ≡ run_app) }
{
    let parser = Parser::new(alloc, "run").arg(noworker_arg(alloc))?;
    let parser = with_options(alloc, parser, RUN_OPTIONS)?;
    Ok(parser.disable_help_flag(true))
}

// Those of a schedule.
pub(crate) fn sched_parser<'a>(alloc: Global) -> Result<Parser<'a>, AllocError>
    ensures { IfOk result (λ parser. app_of parser ≡ sched_app) }
{
    let parser = with_options(alloc, Parser::new(alloc, "sched"), SCHED_OPTIONS)?;
    Ok(parser.disable_help_flag(true))
}

// The option without a value.
fn noworker_arg<'a>(alloc: Global) -> Arg<'a>
    ensures rule { rule_of result ≡ noworker_rule }
    ensures local { result.global ≡ false }
{
    Arg::new(alloc, "noworker")
        .long("noworker")
        .action(ArgAction::SetTrue)
}

// A parser with these options more, each of which has a value.
fn with_options<'a>(
    alloc: Global,
    parser: Parser<'a>,
    names: &'a [&'a str],
) -> Result<Parser<'a>, AllocError>
    ensures { IfOk result (λ more. app_of more ≡ fold (λ app name. with_rule app (option_rule name)) (app_of parser.entry) (map (λ name. name.now) names.now)) }
{
    let mut parser = parser;
    for name in names {
        parser = with_option(alloc, parser, name)?;
    }
    Ok(parser)
}

// One with one more.
fn with_option<'a>(
    alloc: Global,
    parser: Parser<'a>,
    name: &'a str,
) -> Result<Parser<'a>, AllocError>
    ensures { IfOk result (λ more. app_of more ≡ with_rule (app_of parser.entry) (option_rule name.now)) }
{
    parser.arg(Arg::new(alloc, name).long(name))
}
