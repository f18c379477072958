//! What the options of a run say.
ghost use Rattle.std.specs.Prelude.{◌≡◌, ◌%◌, codes, option_map};
ghost use Rattle.clap.specs.Words.{first_of, found_of, rows_of};
ghost use Rattle.nv_words.specs.Words.{image_in, number_or, options_in, page_of_words, stop_in, worker_in};

use crate::numbers::{LARGEST, parse_number};
use crate::words::RunOptions;
use clap::ArgMatches;
use nv_pmem::Pick;

// What the options say, where each says what it may.
pub(crate) fn options_of(matches: &ArgMatches<'_>) -> Option<RunOptions>
    ensures { result ≡ options_in (rows_of (found_of matches.now)) }
{
    let page = page_of(matches)?;
    let entries = number_of(matches, "entries", 16, 2, 1024)?;
    let cache = number_of(matches, "cache", 4, 1, 16384)?;
    let batch = number_of(matches, "batch", 4, 1, 1024)?;
    let pages = number_of(matches, "pages", 64, 1, 1024)?;
    let worker = worker_of(matches);
    let stop = stop_of(matches)?;
    let image = image_of(matches)?;
    Some(RunOptions {
        page,
        entries,
        cache,
        batch,
        pages,
        worker,
        stop,
        image,
    })
}

// The bytes of a page, which are whole lines.
fn page_of(matches: &ArgMatches<'_>) -> Option<u64>
    ensures { result ≡ page_of_words (rows_of (found_of matches.now)) }
{
    let page = number_of(matches, "page", 64, 64, 4096)?;
    if page % 64 == 0 { Some(page) } else { None }
}

// A worker is wanted, unless its option says otherwise.
fn worker_of(matches: &ArgMatches<'_>) -> bool
    ensures { result ≡ worker_in (first_of (codes "noworker") (rows_of (found_of matches.now))) }
{
    match value_of(matches, "noworker") {
        None => true,
        Some(text) => text != "true",
    }
}

// The device call to stop at, where the option is there; none where its value isn't one.
fn stop_of(matches: &ArgMatches<'_>) -> Option<Option<u64>>
    ensures { result ≡ stop_in (first_of (codes "stop") (rows_of (found_of matches.now))) }
{
    match value_of(matches, "stop") {
        None => Some(None),
        Some(text) => parse_number(text, 1, LARGEST).map(Some),
    }
}

// The image to leave; none where the option's value is no image.
fn image_of(matches: &ArgMatches<'_>) -> Option<Pick>
    ensures { result ≡ image_in (first_of (codes "image") (rows_of (found_of matches.now))) }
{
    match value_of(matches, "image") {
        None | Some("old") => Some(Pick::Old),
        Some("new") => Some(Pick::New),
        Some("torn") => Some(Pick::Torn),
        Some("mixed") => Some(Pick::Mixed),
        Some(text) => parse_number(text, 0, LARGEST).map(Pick::Seed),
    }
}

// The number that an option says, from the least to the most; the usual one where the option isn't there.
fn number_of(matches: &ArgMatches<'_>, name: &str, usual: u64, least: u64, most: u64) -> Option<u64>
    ensures { result ≡ number_or usual least most (first_of name.now (rows_of (found_of matches.now))) }
{
    match value_of(matches, name) {
        None => Some(usual),
        Some(text) => parse_number(text, least, most),
    }
}

// The value of an option, where the option is there.
fn value_of<'a>(matches: &ArgMatches<'a>, name: &str) -> Option<&'a str>
    ensures { option_map (λ value. value.now) result ≡ first_of name.now (rows_of (found_of matches.now)) }
{
    matches.get_str(name)
}
