ghost use Rattle.std.specs.Prelude.{◌≡◌, ◌≢◌, IfOk, IsErrOf, codes, map, string_bytes};
ghost use Rattle.std.specs.List.{list_any};
ghost use Rattle.std.specs.Str.{bytes_eq};
ghost use Rattle.clap.specs.Words.{found_of, one_text};
ghost use Rattle.console_words.specs.Numbers.{ReadsNumber, ReadsSample};
ghost use Rattle.console_words.specs.Words.{AsksFor};
ghost use Rattle.console_words.specs.declared.asked.Asked.{Asked};

use crate::command::command;
use crate::{Asked, RunOptions, SampleOptions, WordsFault};
use clap::ArgMatches;
use clap::error::ErrorKind;
use std::alloc::Global;

/// What the words ask for; `words` are the program's words, its name first. Words that ask for
/// nothing are `Usage`. `Memory` may come for any words.
pub fn read_words(alloc: Global, words: &[String]) -> Result<Asked, WordsFault>
    ensures taken { IfOk result (λ asked. AsksFor (map string_bytes words.now) asked) }
    ensures only { IfOk result (λ asked. (other : Asked)
        → AsksFor (map string_bytes words.now) other → other ≡ asked) }
    ensures usage { IsErrOf result WordsFault.Usage
        → (asked : Asked) → ¬ AsksFor (map string_bytes words.now) asked }
{
    let [_, rest @ ..] = words else {
        return Err(WordsFault::Usage);
    };
    // clap takes a `--`, behind which no option stands; here it is no word.
    if has_escape(rest) {
        return Err(WordsFault::Usage);
    }
    let command = command(alloc)?;
    let matches = match command.try_get_matches_from(words) {
        Ok(matches) => matches,
        Err(fault) => return Err(fault_of(fault.kind())),
    };
    if let Some(run) = matches.subcommand_matches("run") {
        return Ok(Asked::Run(run_options(run)));
    }
    if let Some(sample) = matches.subcommand_matches("sample") {
        let Some(options) = sample_options(sample) else {
            return Err(WordsFault::Usage);
        };
        return Ok(Asked::Sample(options));
    }
    let Some(follow) = matches.subcommand_matches("follow") else {
        return Err(WordsFault::Usage);
    };
    match sample_options(follow) {
        Some(options) => Ok(Asked::Follow(options)),
        None => Err(WordsFault::Usage),
    }
}

/// Whether a word is `--`.
fn has_escape(words: &[String]) -> bool
    ensures { result ≡ list_any (λ w. bytes_eq (string_bytes w) (codes "--")) words.now }
{
    words.iter().any(|word| word.as_str() == "--")
}

/// The fault of the words, by what clap's parse failed for.
fn fault_of(kind: ErrorKind) -> WordsFault
    ensures { result ≡ WordsFault.Usage → kind ≢ ErrorKind.OutOfMemory }
{
    match kind {
        ErrorKind::OutOfMemory => WordsFault::Memory,
        _ => WordsFault::Usage,
    }
}

/// The options of `run` that were given.
fn run_options(run: &ArgMatches) -> RunOptions
    ensures threshold { ReadsNumber 16 (one_text (found_of run.now) (codes "threshold"))
        result.threshold }
    ensures limit { ReadsNumber 32 (one_text (found_of run.now) (codes "limit")) result.limit }
{
    RunOptions {
        threshold: run.get_one::<u16>("threshold"),
        limit: run.get_one::<u32>("limit"),
    }
}

/// The numbers of `sample` or `follow`, if both were given.
fn sample_options(sample: &ArgMatches) -> Option<SampleOptions>
    ensures { ReadsSample (one_text (found_of sample.now) (codes "seed"))
        (one_text (found_of sample.now) (codes "count")) result }
{
    let seed = sample.get_one::<u64>("seed")?;
    let count = sample.get_one::<u32>("count")?;
    Some(SampleOptions { seed, count })
}
