//! The words of `serve`.

ghost use Rattle.std.specs.Prelude.{◌≡◌, map, option_map, option_and_then, IfOk, IfSome};
ghost use Rattle.walk_top.specs.Jobs.{has_one_dash, texts};
ghost use Rattle.walk_top.specs.WordRules.{said};
ghost use Rattle.walk_top.specs.ServeJobs.{is_serve, serve_by, serve_job, serve_options, serve_said};
ghost use Rattle.walk_top.specs.ServeViews.{AreFew, serve_of};

use crate::splitting::split;
use crate::words::required_number;
use std::alloc::Global;
use walk_model::Memory;

/// The most request files.
const MOST_REQUESTS: usize = 16;

/// The words of `serve`: GRAPH PROGRAMME and 1 to 16 request files, and `--seed`.
#[derive(Drop)]
pub(crate) struct ServeWords<'a> {
    pub graph: &'a str,
    pub programme: &'a str,
    pub requests: Vec<&'a str>,
    pub seed: u64,
}

/// Whether the name `-` is there at most once.
fn has_one_dash(names: &[&str]) -> bool
    ensures { result ≡ has_one_dash (map (λ n. n.now) names.now) }
{
    let mut dashes = 0usize;
    for name in names {
        if *name == "-" {
            dashes += 1;
        }
    }
    dashes <= 1
}

/// The words of `serve` by their places and the option.
fn serve_by<'a>(
    alloc: Global,
    places: &[&'a str],
    seed: Option<&str>,
) -> Result<Option<ServeWords<'a>>, Memory>
    ensures job { IfOk result (λ o. option_map serve_of o ≡ serve_by (option_map (λ w. w.now) seed.entry) (map (λ p. p.now) places.now)) }
    ensures few { IfOk result (λ o. IfSome o AreFew) }
{
    match places {
        [graph, programme, requests @ ..] => {
            if requests.is_empty() || requests.len() > MOST_REQUESTS || !has_one_dash(places) {
                return Ok(None);
            }
            let Some(seed) = required_number(seed, 0, u64::MAX) else {
                return Ok(None);
            };
            Ok(Some(ServeWords {
                graph: *graph,
                programme: *programme,
                requests: requests.to_vec(alloc)?,
                seed,
            }))
        }
        _ => Ok(None),
    }
}

static SERVE_OPTIONS: [&str; 1] = ["seed"];

/// The words after `serve`.
fn words_after<'a>(alloc: Global, words: &'a [String]) -> Result<Option<ServeWords<'a>>, Memory>
    ensures job { IfOk result (λ o. option_map serve_of o ≡ option_and_then serve_said (said serve_options (texts words.now))) }
    ensures few { IfOk result (λ o. IfSome o AreFew) }
{
    match split(alloc, words, SERVE_OPTIONS.as_slice())? {
        None => Ok(None),
        Some(matches) => {
            let places = matches.get_raw("PLACES").unwrap_or(&[]);
            let seed = matches.get_str("seed");
            serve_by(alloc, places, seed)
        }
    }
}

/// Whether these words are those of `serve`: the first one is.
pub fn is_serve(words: &[String]) -> bool
    ensures { result ≡ is_serve (texts words.now) }
{
    match words {
        [] => false,
        [command, ..] => command.as_str() == "serve",
    }
}

/// The words of `serve`, where they have a meaning.
///
/// # Errors
///
/// Want of memory alone: words without a meaning are no error here.
#[tactic(auto, unfolding(crate::specs::ServeJobs::serve_job))]
pub(crate) fn read_serve_words<'a>(
    alloc: Global,
    words: &'a [String],
) -> Result<Option<ServeWords<'a>>, Memory>
    ensures job { IfOk result (λ o. option_map serve_of o ≡ serve_job (texts words.now)) }
    ensures few { IfOk result (λ o. IfSome o AreFew) }
{
    match words {
        [] => Ok(None),
        [command, rest @ ..] => {
            if command.as_str() == "serve" {
                words_after(alloc, rest)
            } else {
                Ok(None)
            }
        }
    }
}
