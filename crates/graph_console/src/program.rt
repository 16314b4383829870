ghost use Rattle.std.specs.Prelude.{◌≡◌, ◌≢◌, ◌⊎◌, ◌+◌, ◌^◌, ◌≤◌, Bool, length, map, string_bytes};
ghost use Rattle.std.specs.Prelude.{true};
ghost use Rattle.fault_count.specs.Cause.{Rose};
ghost use Rattle.stored_graph.specs.Stands.{Stands};
ghost use Rattle.console_words.specs.Words.{AsksFor};
ghost use Rattle.console_words.specs.declared.run_options.RunOptions.{RunOptions};
ghost use Rattle.console_words.specs.declared.sample_options.SampleOptions.{SampleOptions};
ghost use Rattle.plain_graph.specs.Graph.{Graph};
ghost use Rattle.rec_bytes.specs.Shape.{is_allowed};
ghost use Rattle.rec_bytes.specs.declared.shape.Shape.{Shape};
ghost use Rattle.txn_core.specs.Config.{Suits, shape_of};
ghost use Rattle.txn_core.specs.declared.config.Config.{Config as AConfig};
ghost use Rattle.recovery.specs.Finding.{IsCareful};
ghost use Rattle.graph_session.specs.Known.{as_known};
ghost use Rattle.graph_session.specs.Opening.{IsUnopened, LeavesRefused, StandsForOne};
ghost use Rattle.graph_console.specs.AnyDisk.{terms_over};
ghost use Rattle.graph_console.specs.Follow.{Follows};
ghost use Rattle.graph_console.specs.Program.{AskForNothing, AskForSample, EndsWithLine};
ghost use Rattle.graph_console.specs.Program.{HasStreamCause, HoldsGraph, Refuses, ServesOn};
ghost use Rattle.graph_console.specs.Program.{Writes, config_for, memory_line, streams, terms_for};
ghost use Rattle.graph_console.specs.Sample.{IsSampleExit, Samples};
ghost use Rattle.graph_console.specs.Unopened.{EndsUnopened, HasOtherShape, IsUnopenedExit};
ghost use Rattle.graph_console.specs.Unopened.{exit_of, line_of};

use crate::Exit;
use crate::follow::follow;
use crate::sample::sample;
use crate::serve::serve;
use console_words::{Asked, RunOptions, WordsFault, read_words};
use disk_model::Disk;
use fault_count::Failed;
use graph_session::{Config, NotOpened, OpenFault, Session};
use plain_graph::{configuration, damaged, disk_fault, no_memory, not_a_store};
use std::alloc::Global;
use stream_io::{LineReader, Sink, Source};

/// What is written for words that ask for nothing that the program does.
const USAGE: &[u8] =
    b"usage: run [--threshold N] [--limit N] | sample SEED COUNT | follow SEED COUNT\n";

/// The program: `run` opens the store of the disk, or makes one, serves the lines of the input on
/// its graph, and gives each reply to the output. `sample` does so with generated lines on a store
/// of its own, and `follow` has a follower take them over. `words` are the program's words, its
/// name first.
pub fn graph_main<S: Source, K: Sink, D: Disk>(
    alloc: Global,
    words: Vec<String>,
    input: &mut S,
    output: &mut K,
    disk: &mut D,
) -> Exit
    // What is written are the replies of a run of the console to the input's lines, as far as the
    // exit says. Each line is of one session. The run starts with the graph that the disk holds and
    // with no snapshot. At its end each content that a crash may leave stands for a graph that the
    // run's last state admits. At each moment it left a content from before, or one that a state of
    // the run admits. No opening reads each record, so this is said of a disk that stands for a
    // graph; of any other, and where what the disk reads is not known, the lines, the exits, the
    // order of the replies and the counted faults are said.
    ensures serves { (known : Bool) (options : RunOptions)
        → AsksFor (map string_bytes words.items) (Asked.Run options)
        → HoldsGraph (as_known known D.Disk) disk.old
        → ServesOn S.Source K.Sink
        (terms_for (as_known known D.Disk) options disk.old disk.new) result
        (streams input.old output.old) (streams input.new output.new) }

    // Over any disk, whatever is in it, each line does what the session's contract says, from what
    // opening the store left to the disk as it is left. So a run in which no line acknowledges a
    // transaction, and none says that the disk failed, loses no record of a store, also of one that
    // breaks a rule.
    ensures steps { (options : RunOptions)
        → AsksFor (map string_bytes words.items) (Asked.Run options)
        → ServesOn S.Source K.Sink (terms_over D.Disk options disk.old disk.new) result
        (streams input.old output.old) (streams input.new output.new) }

    // Where the store was not opened, one line says why, and the disk holds what it held or a new
    // store.
    ensures unopened { (options : RunOptions)
        → AsksFor (map string_bytes words.items) (Asked.Run options)
        → IsUnopenedExit result → K.tells
        → Writes (K.taken output.old) (K.taken output.new) (EndsUnopened
        (IsUnopened D.Disk (config_for options) disk.old disk.new) result) }

    // Files that are no store, or one whose log or counts are broken, are left as they were. Where
    // the files are refused for what they hold, so are the records, but for the version.
    ensures careful { IsCareful D.Disk disk.old disk.new }
    ensures untouched { (options : RunOptions)
        → AsksFor (map string_bytes words.items) (Asked.Run options) → D.tells_reads
        → result ≡ Exit.BadFiles → LeavesRefused D.Disk disk.old disk.new }

    // Where another shape is asked for than the store has, the exit has both, and `unopened` the
    // line of them. The store keeps its records, of the version that it had.
    ensures differs { (options : RunOptions) (stored : Shape) (asked : AConfig)
        → AsksFor (map string_bytes words.items) (Asked.Run options) → D.tells_reads
        → result ≡ Exit.ConfigDiffers stored asked
        → HasOtherShape D.Disk (config_for options) disk.old disk.new stored asked }

    // A disk that stands for a graph is never refused as damaged, and for its shape only where
    // another is asked for.
    ensures sound { (options : RunOptions) (shape : Shape) (graph : Graph)
        → AsksFor (map string_bytes words.items) (Asked.Run options) → D.tells_reads
        → Stands (D.reads disk.old) shape graph
        → (result ≢ Exit.BadFiles)
        × ((stored : Shape) (asked : AConfig) → result ≡ Exit.ConfigDiffers stored asked
        → (stored ≡ shape) × ¬ Suits (config_for options) shape) }

    // A sample writes the replies to its last lines, of a run of the console on an empty store of
    // its own, whose other lines are drawn from the seed and the replies so far.
    ensures samples { (options : SampleOptions)
        → AsksFor (map string_bytes words.items) (Asked.Sample options) → K.tells
        → Writes (K.taken output.old) (K.taken output.new) (Samples (Unit {0}) options result) }

    // A follower takes such lines over, a shipment of each, and what comes of the deliveries is a
    // function of their numbers. Then the follower has the graph of the run.
    ensures follows { (options : SampleOptions)
        → AsksFor (map string_bytes words.items) (Asked.Follow options) → K.tells
        → Writes (K.taken output.old) (K.taken output.new) (Follows (Unit {0}) options result) }
    ensures sampled { AskForSample (map string_bytes words.items) → IsSampleExit result }

    // Words that are no command get the usage line.
    ensures refuses { AskForNothing (map string_bytes words.items) → K.tells
        → Writes (K.taken output.old) (K.taken output.new) (Refuses result) }
    ensures usage { result ≡ Exit.Usage → AskForNothing (map string_bytes words.items) }
    ensures refused { AskForNothing (map string_bytes words.items)
        → (result ≡ Exit.Usage) ⊎ (result ≡ Exit.OutputFault) ⊎ (result ≡ Exit.NoMemory) }

    // At most 2^30 bytes are taken from the input.
    ensures within { S.tells
        → length (S.left input.old) ≤ 2 ^ 30 + length (S.left input.new) }

    // Where nothing is served, and by a sample, neither the input is read nor the disk used.
    ensures unread { AskForNothing (map string_bytes words.items)
        ⊎ AskForSample (map string_bytes words.items) ⊎ IsUnopenedExit result
        → input.new ≡ input.old }
    ensures unused { AskForNothing (map string_bytes words.items)
        ⊎ AskForSample (map string_bytes words.items) → disk.new ≡ disk.old }

    // A fault is answered only where its object counted one. A run ends failed only so, if what the
    // disk reads stood for a graph.
    ensures cause { HasStreamCause S.Source K.Sink result
        (streams input.old output.old) (streams input.new output.new) }
    ensures disk_fault { result ≡ Exit.DiskFault → Rose (D.faults disk.old) (D.faults disk.new) }
    ensures store_failed { (options : RunOptions)
        → AsksFor (map string_bytes words.items) (Asked.Run options)
        → D.tells_reads → StandsForOne D.Disk disk.old → S.tells → K.tells
        → result ≡ Exit.StoreFailed → Rose (D.faults disk.old) (D.faults disk.new) }
{
    let asked = match read_words(alloc, &words) {
        Ok(asked) => asked,
        Err(WordsFault::Usage) => return end_with_line(output, USAGE, Exit::Usage),
        Err(WordsFault::Memory) => return end_without_memory(output),
    };
    match asked {
        Asked::Run(options) => run(alloc, options, input, output, disk),
        Asked::Sample(options) => sample(alloc, options, output),
        Asked::Follow(options) => follow(alloc, options, output),
    }
}

/// The program `run`. Its clauses are those of `graph_main`, for these options.
fn run<S: Source, K: Sink, D: Disk>(
    alloc: Global,
    options: RunOptions,
    input: &mut S,
    output: &mut K,
    disk: &mut D,
) -> Exit
    requires { is_allowed (shape_of (config_for options)) ≡ true }
    ensures serves { (known : Bool) → HoldsGraph (as_known known D.Disk) disk.old
        → ServesOn S.Source K.Sink
        (terms_for (as_known known D.Disk) options disk.old disk.new) result
        (streams input.old output.old) (streams input.new output.new) }
    ensures steps { ServesOn S.Source K.Sink (terms_over D.Disk options disk.old disk.new) result
        (streams input.old output.old) (streams input.new output.new) }
    ensures unopened { IsUnopenedExit result → K.tells
        → Writes (K.taken output.old) (K.taken output.new) (EndsUnopened
        (IsUnopened D.Disk (config_for options) disk.old disk.new) result) }
    ensures careful { IsCareful D.Disk disk.old disk.new }
    ensures untouched { D.tells_reads → result ≡ Exit.BadFiles
        → LeavesRefused D.Disk disk.old disk.new }
    ensures differs { (stored : Shape) (asked : AConfig) → D.tells_reads
        → result ≡ Exit.ConfigDiffers stored asked
        → HasOtherShape D.Disk (config_for options) disk.old disk.new stored asked }
    ensures sound { (shape : Shape) (graph : Graph) → D.tells_reads
        → Stands (D.reads disk.old) shape graph
        → (result ≢ Exit.BadFiles)
        × ((stored : Shape) (asked : AConfig) → result ≡ Exit.ConfigDiffers stored asked
        → (stored ≡ shape) × ¬ Suits (config_for options) shape) }
    ensures within { S.tells
        → length (S.left input.old) ≤ 2 ^ 30 + length (S.left input.new) }
    ensures known { result ≢ Exit.Usage }
    ensures unread { IsUnopenedExit result → input.new ≡ input.old }
    ensures cause { HasStreamCause S.Source K.Sink result
        (streams input.old output.old) (streams input.new output.new) }
    ensures disk_fault { result ≡ Exit.DiskFault → Rose (D.faults disk.old) (D.faults disk.new) }
    ensures store_failed { D.tells_reads → StandsForOne D.Disk disk.old → S.tells → K.tells
        → result ≡ Exit.StoreFailed → Rose (D.faults disk.old) (D.faults disk.new) }
{
    let Ok(mut reader) = LineReader::new(alloc) else {
        return end_without_memory(output);
    };
    match Session::open(alloc, disk, config_of(options)) {
        Ok(mut session) => {
            let exit = serve(&mut reader, &mut session, input, output);
            let _ = session.close();
            exit
        }
        Err(
            NotOpened {
                why,
                disk: _handed_back,
            },
        ) => end_unopened(output, why),
    }
}

/// The store that the options ask for.
fn config_of(options: RunOptions) -> Config
    ensures { result ≡ config_for options }
{
    Config {
        threshold: options.threshold,
        limit: options.limit,
    }
}

/// Ends the program for want of memory, before the input is read.
pub fn end_without_memory<K: Sink>(output: &mut K) -> Exit
    ensures { EndsWithLine K.Sink memory_line Exit.NoMemory output.old output.new result }
{
    end_with_line(output, no_memory(), Exit::NoMemory)
}

/// Ends the program where the store was not opened.
fn end_unopened<K: Sink>(output: &mut K, why: OpenFault) -> Exit
    ensures { EndsWithLine K.Sink (line_of why) (exit_of why) output.old output.new result }
{
    match why {
        OpenFault::Memory => end_without_memory(output),
        OpenFault::Disk => end_with_line(output, disk_fault(), Exit::DiskFault),
        OpenFault::NotAStore => end_with_line(output, not_a_store(), Exit::BadFiles),
        OpenFault::Damaged(damage) => end_with_line(
            output,
            damaged(damage.file, damage.id).as_bytes(),
            Exit::BadFiles,
        ),
        OpenFault::ConfigDiffers { stored, asked } => end_with_line(
            output,
            configuration(stored.threshold, stored.limit).as_bytes(),
            Exit::ConfigDiffers { stored, asked },
        ),
    }
}

/// Ends the program with bytes of its own.
pub(crate) fn end_with_line<K: Sink>(output: &mut K, line: &[u8], exit: Exit) -> Exit
    ensures { EndsWithLine K.Sink line.now exit output.old output.new result }
{
    match output.put(line) {
        Ok(()) => exit,
        Err(Failed) => Exit::OutputFault,
    }
}
