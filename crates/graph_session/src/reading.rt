//! The lines of sessions that read.

ghost use Rattle.std.specs.Prelude.{◌≡◌, ◌≢◌, ◌≤◌, IfNone, IfSome, List, ℕ};
ghost use Rattle.stream_io.specs.Lines.{Whole};
ghost use Rattle.graph_session.specs.Jobs.{question_command, snapshot_command};
ghost use Rattle.plain_graph.specs.Lines.{HasForm, IsQuestion};
ghost use Rattle.plain_graph.specs.declared.command.Command.{Command};
ghost use Rattle.snap_store.specs.Layers.{SameSights};
ghost use Rattle.snap_store.specs.Snaps.{IsReader, state_of};
ghost use Rattle.snap_store.specs.declared.snap_state.SnapState.TheVariants as states;
ghost use Rattle.graph_session.specs.Answer.{AnswersLine};
ghost use Rattle.graph_session.specs.Answering.{reply_of};
ghost use Rattle.graph_session.specs.ReaderAnswers.{LacksSnapshot, MayRelease, MaySnap};
ghost use Rattle.graph_session.specs.ReaderAnswers.{RefusesReader, ServesReader, SuitsSnapshot};
ghost use Rattle.graph_session.specs.Settling.{IsParsed};
ghost use Rattle.graph_session.specs.declared.health.Health.TheVariants as healths;

use crate::answer::Answer;
use crate::context::Context;
use crate::giving::give_reply;
use crate::job::SnapshotAct;
use crate::question::Question;
use crate::session::WRITER;
use crate::sight_reading::{Reader, read_store};
use crate::{Health, Session, Turn};
use disk_model::Disk;
use plain_graph::Refusal;
use rec_bytes::Fault;
use snap_store::SnapState;
use stream_io::Sink;

impl<'d, D: Disk> Session<'d, D> {
    ghost use Rattle.graph_session.specs.Session.{HaveSameDisk, shared_view, view, with_sink};

    /// Answers a line about a snapshot, which only sessions that read have.
    pub(crate) fn serve_snapshot<K: Sink>(
        &mut self,
        session: u8,
        act: SnapshotAct,
        prefix: &[u8],
        output: &mut K,
    ) -> Turn
        requires session { session ≤ 7 }
        ensures answers { (line : List ℕ) → IsParsed line session (snapshot_command act) prefix.now
            → AnswersLine D.Disk K.Sink (Whole line)
            (with_sink self.old output.old) (with_sink self.new output.new) result }
        ensures same_disk { HaveSameDisk self.old self.new }
    {
        if session == WRITER {
            return give_reply(
                &mut self.buffer,
                prefix,
                output,
                Answer::Refused(Refusal::Writer),
            );
        }
        if let Some(why) = self.refuses_snapshot(session, act) {
            return give_reply(&mut self.buffer, prefix, output, Answer::Refused(why));
        }
        match act {
            SnapshotAct::Take => {
                let answer = self.take_snapshot(session);
                give_reply(&mut self.buffer, prefix, output, answer)
            }
            SnapshotAct::Release => {
                let answer = self.release_snapshot(session);
                give_reply(&mut self.buffer, prefix, output, answer)
            }
        }
    }

    /// Answers a line that reads what the snapshot of a session shows.
    pub(crate) fn read_snapshot<K: Sink>(
        &mut self,
        reader: u8,
        question: Question<'_>,
        prefix: &[u8],
        output: &mut K,
    ) -> Turn
        requires form { HasForm (question_command question) }
        requires reader { IsReader reader }
        ensures answers { (line : List ℕ)
            → IsParsed line reader (question_command question.entry) prefix.now
            → AnswersLine D.Disk K.Sink (Whole line)
            (with_sink self.old output.old) (with_sink self.new output.new) result }
        ensures same_disk { HaveSameDisk self.old self.new }
    {
        if let Some(why) = self.refuses_reading(reader) {
            return give_reply(&mut self.buffer, prefix, output, Answer::Refused(why));
        }
        let context = Context {
            alloc: self.alloc,
            names: &self.names,
        };
        let seer = Reader {
            context,
            snaps: &self.snaps,
            number: reader,
        };
        read_store(
            seer,
            &mut self.store,
            question,
            &mut self.buffer,
            prefix,
            output,
        )
    }

    // Why a line about the reader's snapshot is refused, if it is.
    fn refuses_snapshot(&self, reader: u8, act: SnapshotAct) -> Option<Refusal>
        requires { IsReader reader }
        ensures refused { IfSome result
            (RefusesReader reader (shared_view self.now) (snapshot_command act)) }
        ensures served { IfNone result
            (ServesReader reader (shared_view self.now) (snapshot_command act)) }
    {
        match self.health {
            Health::Failed => Some(Refusal::Failed),
            Health::Live => lacked_snapshot(act, self.snaps.state(reader)),
        }
    }

    // Why a line that reads is refused, if it is; else the reader's snapshot is open.
    fn refuses_reading(&self, reader: u8) -> Option<Refusal>
        requires { IsReader reader }
        ensures refused { IfSome result (λ why. (command : Command) → IsQuestion command
            → RefusesReader reader (shared_view self.now) command why) }
        ensures live { IfNone result (self.now.health ≡ healths.Live) }
        ensures open { IfNone result (state_of self.now.snaps reader ≡ states.Open) }
    {
        match self.health {
            Health::Failed => Some(Refusal::Failed),
            Health::Live => lacked_reading(self.snaps.state(reader)),
        }
    }

    // Takes a snapshot of what is committed. It makes no call of the disk.
    fn take_snapshot(&mut self, reader: u8) -> Answer
        requires reader { IsReader reader }
        requires closed { state_of self.old.snaps reader ≢ states.Open }
        ensures may { MaySnap D.Disk reader (shared_view self.old) (reply_of result)
            (shared_view self.new) }
        ensures same_disk { HaveSameDisk self.old self.new }
    {
        match self.snaps.take(reader) {
            Ok(()) => Answer::Done,
            Err(_) => Answer::Fault(Fault::Memory),
        }
    }

    // Releases a snapshot, also one that has ended. It needs no memory.
    fn release_snapshot(&mut self, reader: u8) -> Answer
        requires reader { IsReader reader }
        ensures may { MayRelease D.Disk reader (shared_view self.old) (reply_of result)
            (shared_view self.new) }
        // Each other snapshot sees what it saw.
        ensures sights { SameSights self.old.snaps.open_ones self.new.snaps.open_ones }
        ensures same_disk { HaveSameDisk self.old self.new }
    {
        self.snaps.release(reader);
        Answer::Done
    }
}

// Why a snapshot in this state is neither taken nor released, if it isn't.
fn lacked_snapshot(act: SnapshotAct, state: SnapState) -> Option<Refusal>
    ensures lacks { IfSome result (LacksSnapshot state (snapshot_command act)) }
    ensures suits { IfNone result (SuitsSnapshot state (snapshot_command act)) }
{
    match act {
        SnapshotAct::Take => match state {
            SnapState::Open => Some(Refusal::SnapshotOpen),
            SnapState::Absent | SnapState::Ended => None,
        },
        SnapshotAct::Release => match state {
            SnapState::Absent => Some(Refusal::NoSnapshot),
            SnapState::Open | SnapState::Ended => None,
        },
    }
}

// Why a snapshot in this state isn't read, if it isn't open.
fn lacked_reading(state: SnapState) -> Option<Refusal>
    ensures lacks { IfSome result (λ why. (command : Command) → IsQuestion command
        → LacksSnapshot state command why) }
    ensures open { IfNone result (state ≡ states.Open) }
{
    match state {
        SnapState::Absent => Some(Refusal::NoSnapshot),
        SnapState::Ended => Some(Refusal::SnapshotEnded),
        SnapState::Open => None,
    }
}
