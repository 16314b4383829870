ghost use Rattle.std.specs.Prelude.{◌≡◌, ℕ, IfOk, false, pos};
ghost use Rattle.clap.specs.Words.{app_of};
ghost use Rattle.clap.specs.declared.builder.command.Command.TheViews.{out-Command};
ghost use Rattle.clap.specs.declared.builder.value_parser.ValueParser.TheVariants.{Signed};
ghost use Rattle.console_words.specs.Command.{lines_app, program_app, run_app};

use clap::builder::ValueParser;
use clap::{Arg, ArgAction, Command, value_parser};
use std::alloc::{AllocError, Global};

/// The command of the words: the subcommands `run`, `sample` and `follow`, and no help or version.
pub(crate) fn command<'a>(alloc: Global) -> Result<Command<'a>, AllocError>
    ensures { IfOk result (λ c. app_of c ≡ program_app) }
{
    let run = run_command(alloc)?;
    let with_run = Command::new(alloc, "graph")
        .disable_help_flag(true)
        .disable_help_subcommand(true)
        .subcommand_required(true)
        .subcommand(run)?;
    let sample = lines_command(alloc, "sample", value_parser!(u32).range(1..=20_000))?;
    let with_sample = with_run.subcommand(sample)?;
    let follow = lines_command(alloc, "follow", value_parser!(u32).range(1..=2_000))?;
    with_sample.subcommand(follow)
}

/// `run`, with its two options.
fn run_command<'a>(alloc: Global) -> Result<Command<'a>, AllocError>
    ensures app { IfOk result (λ c. app_of c ≡ run_app) }
    ensures globals { IfOk result (λ c. (out-Command c).has_globals ≡ false) }
{
    let threshold = Arg::new(alloc, "threshold")
        .long("threshold")
        .action(ArgAction::Set)
        .value_parser(value_parser!(u16).range(2..=200));
    let limit = Arg::new(alloc, "limit")
        .long("limit")
        .action(ArgAction::Set)
        .value_parser(value_parser!(u32).range(16..=16_777_216));
    Command::new(alloc, "run").arg(threshold)?.arg(limit)
}

/// A subcommand with the two numbers of a sample, which stand in this order; the parser takes the
/// second one.
fn lines_command<'a>(
    alloc: Global,
    name: &'a str,
    counts: ValueParser<'a>,
) -> Result<Command<'a>, AllocError>
    ensures app { IfOk result (λ c. (most : ℕ) → counts.entry ≡ Signed (pos 1) (pos most)
        → app_of c ≡ lines_app name.entry.now most) }
    ensures globals { IfOk result (λ c. (out-Command c).has_globals ≡ false) }
{
    let seed = Arg::new(alloc, "seed")
        .required(true)
        .action(ArgAction::Set)
        .value_parser(value_parser!(u64));
    let count = Arg::new(alloc, "count")
        .required(true)
        .action(ArgAction::Set)
        .value_parser(counts);
    Command::new(alloc, name).arg(seed)?.arg(count)
}
