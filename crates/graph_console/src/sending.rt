ghost use Rattle.std.specs.Prelude.{◌≡◌, [], List, true, ℕ};
ghost use Rattle.stream_io.specs.Lines.{InputLine};
ghost use Rattle.plain_graph.specs.Reply.{Reply};
ghost use Rattle.rec_bytes.specs.Pairs.{Pairs};
ghost use Rattle.rec_bytes.specs.Shape.{is_allowed};
ghost use Rattle.rec_bytes.specs.declared.shape.Shape.{Shape as AShape};
ghost use Rattle.stored_graph.specs.Stands.{IsZeros};
ghost use Rattle.txn_core.specs.Config.{shape_of};
ghost use Rattle.txn_core.specs.declared.config.Config.{Config as AConfig};
ghost use Rattle.graph_session.specs.Answer.{Terminal, shared_in};
ghost use Rattle.graph_session.specs.SharedConsole.{IsSharedAt};
ghost use Rattle.graph_session.specs.SnapshotEffects.{SharedView};
ghost use Rattle.graph_session.specs.Snapshots.{SharedState};
ghost use Rattle.graph_session.specs.Tapping.{TapsLine};
ghost use Rattle.graph_session.specs.declared.turn.Turn.{Turn as ATurn};
ghost use Rattle.graph_console.specs.Sending.{
  HasSent,
  HasSentMore,
  OpensSession,
  Sender,
  Sends,
  Ships,
  Steps,
  TappedLine,
  new_state,
};

use disk_model::Disk;
use stream_io::Sink;

/// What a session sends, one shipment for each transaction that it acknowledges, is what a follower
/// takes over: the shipments of a sender whose graphs are those of the session.
pub fn sends_what_it_commits<D: Disk, K: Sink>()
    // A session that is opened over a disk of zeros has sent nothing.
    ensures begins { D.tells_reads → (config : AConfig) (disk : D) (new : SharedView D)
        → is_allowed (shape_of config) ≡ true → IsZeros (D.reads disk)
        → OpensSession D.Disk config disk new
        → HasSent D.Disk (shape_of config) [] new (new_state (shape_of config)) }

    // What a call says of its line and its set is such a step.
    ensures steps { (line : InputLine) (old new : Terminal D K) (turn : ATurn) (tap : Pairs)
        (before : SharedState) (taps : TapsLine D.Disk K.Sink line old new turn tap)
        → IsSharedAt D.Disk (shared_in old) before
        → Steps D.Disk line (shared_in old) before taps.answers.reply (shared_in new) tap }

    // Each line goes on.
    ensures goes_on { D.tells_reads → (shape : AShape) (sent later : List (List ℕ))
        (line : InputLine) (old new : SharedView D) (before : SharedState) (reply : Reply)
        (tap : Pairs) → HasSent D.Disk shape sent old before
        → (steps : Steps D.Disk line old before reply new tap)
        → Sends line old reply new tap shape sent later
        → HasSent D.Disk shape later new steps.settles.shared.after }

    // And so does each run.
    ensures run { D.tells_reads → (shape : AShape) (lines : List (TappedLine D))
        (first last : Sender D) → HasSent D.Disk shape first.sent first.view first.state
        → Ships D.Disk shape first lines last → HasSentMore D.Disk shape first last }
{}
