ghost use Rattle.std.specs.Prelude.{◌≡◌, ℕ, List};
ghost use Rattle.disk_model.specs.Contents.{Files};
ghost use Rattle.plain_graph.specs.Graph.{Graph};
ghost use Rattle.rec_bytes.specs.declared.shape.Shape.{Shape as AShape};
ghost use Rattle.stored_graph.specs.Stands.{Stands};
ghost use Rattle.console_words.specs.declared.run_options.RunOptions.{RunOptions};
ghost use Rattle.graph_session.specs.Exchange.{Exchange};
ghost use Rattle.graph_session.specs.Snapshots.{Sees, SharedState};
ghost use Rattle.graph_session.specs.State.{Live};
ghost use Rattle.graph_console.specs.History.{Transactions, last_graph};
ghost use Rattle.graph_console.specs.Lives.{Event, Happen, IsCall, IsKept, World, start_of};
ghost use Rattle.graph_console.specs.Program.{Serves, terms_for};
ghost use Rattle.graph_console.specs.Run.{Run, no_readers};
ghost use Rattle.graph_console.specs.TakenSnapshots.{HasTaken};
ghost use Rattle.graph_console.specs.declared.exit.Exit.{Exit as AnExit};

use disk_model::Disk;

/// What holds over every list of runs of the program and of stops: it runs again on what any moment
/// of an earlier run left, its opening stopped and begun again, and `reopen` asked after a failure.
pub fn keeps_over_runs<D: Disk>()
    // Each image stands for a graph that the runs may leave: so each run begins with one to which
    // the first exchanges of the run before it led, or that run's last ones where it ended.
    ensures kept { D.tells_reads → D.tells_images
        → (start : Graph) (shape : AShape) (disk : D) (events : List (Event D)) (end : World D)
        → ((image : Files) → D.may_leave disk image → Stands image shape start)
        → Happen D.Disk (start_of D.Disk disk) events end → IsKept D.Disk start events end }
    // What `graph_main` says of a call is an event of such a list: the run with this input, these
    // replies and this exit, or the refused opening with this line.
    ensures events { (options : RunOptions) (exit : AnExit) (first last : D)
        (input left written : List ℕ)
        → Serves (terms_for D.Disk options first last) exit input left written
        → (event : Event D)
        × IsCall D.Disk options first last exit input left written event }
    // Each run from a console that has not failed has the list of its transactions, to which the
    // sessions that read add none.
    ensures recorded { D.tells_reads
        → (first : SharedState) (run : List Exchange) (last : SharedState)
        → first.writer.standing ≡ Live → Run D.tells_reads first run last
        → (graphs : List Graph) × Transactions D.tells_reads first run last graphs }
    // The committed graph of a state is that of the last transaction of the exchanges that lead to
    // it.
    ensures transactions { (first : SharedState) (run : List Exchange) (last : SharedState)
        (graphs : List Graph) → Transactions D.tells_reads first run last graphs
        → Run D.tells_reads first run last
        × (last.writer.committed ≡ last_graph first.writer.committed graphs) }
    // A snapshot that is open at the end of a run was taken in it, and sees the graph that was
    // committed then, whatever was committed since.
    ensures snapshots { D.tells_reads
        → (first : SharedState) (run : List Exchange) (last : SharedState)
        → first.readers ≡ no_readers → Run D.tells_reads first run last
        → (reader : ℕ) (graph : Graph) → Sees last.readers reader graph
        → HasTaken D.tells_reads first run reader graph }
{}
