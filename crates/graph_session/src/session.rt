ghost use Rattle.std.specs.Prelude.{
  ◌≡◌,
  ◌≢◌,
  ◌≤◌,
  [],
  IsTrue,
  List,
  false,
  ℕ,
};
ghost use Rattle.stream_io.specs.Lines.{Long, Whole};
ghost use Rattle.rec_bytes.specs.Format.{most_writes};
ghost use Rattle.recovery.specs.Finding.{IsCareful};
ghost use Rattle.graph_session.specs.Answer.{AnswersLine};
ghost use Rattle.graph_session.specs.Answering.{reply_of};
ghost use Rattle.graph_session.specs.Console.{HasNoDraft};
ghost use Rattle.graph_session.specs.Settling.{IsParsed, ServesAct, SettlesCommand};
ghost use Rattle.graph_session.specs.SnapshotEffects.{KeepsOlds};
ghost use Rattle.graph_session.specs.Tapping.{AllShip-prop, HasRoom, Takes, TapsAnswer};
ghost use Rattle.graph_session.specs.Tapping.{TapsCommand, TapsLine};
ghost use Rattle.txn_core.specs.Shipped.{AllShip};
ghost use Rattle.gremlin_parse.specs.Lines.{Spells};
ghost use Rattle.graph_session.specs.Jobs.{act_command, question_command};
ghost use Rattle.plain_graph.specs.Lines.{HasForm};
ghost use Rattle.plain_graph.specs.declared.command.Command.TheVariants as commands;
ghost use Rattle.graph_session.specs.declared.job.Act.TheVariants as acts;
ghost use Rattle.graph_session.specs.declared.health.Health.TheVariants as healths;

use crate::answer::Answer;
use crate::context::Context;
use crate::giving::give_reply;
use crate::job::{Act, Job};
use crate::line_buffer::LineBuffer;
use crate::question::Question;
use crate::questions::reply_question;
use crate::{Health, Turn};
use disk_model::Disk;
use gremlin_parse::{ParsedLine, parse_line};
use name_store::Names;
use plain_graph::{Command, Refusal, prefix_of};
use rec_bytes::WriteSet;
use snap_store::Snaps;
use std::alloc::Global;
use std::mem::replace;
use stream_io::Sink;
use txn_core::Store;

/// The session that writes. The others only read.
pub(crate) const WRITER: u8 = 0;

/// The sessions over a disk: one that writes, and seven that read snapshots.
#[derive(Drop)]
pub struct Session<'d, D: Disk> {
    pub(crate) store: Store<'d, D>,
    /// The names of the graph that a line sees.
    pub(crate) names: Names,
    /// What the open transaction weighs.
    pub(crate) weight: u32,
    pub(crate) health: Health,
    /// The snapshots of the sessions that read, with the old records that they need.
    pub(crate) snaps: Snaps,
    /// Where the lines of a reply are gathered. Each reply begins with none.
    pub(crate) buffer: LineBuffer,
    pub(crate) alloc: Global,
    ghost light: { weight ≤ 2048 },
    ghost standing: { health ≡ healths.Live → IsTrue store.base.live },

    // A shipment may have each record that the open transaction has written.
    ghost ships: { AllShip store.base.shape store.base.own.pairs } by { AllShip-prop
        store.base.shape store.base.own.pairs },
}

impl<'d, D: Disk> Session<'d, D> {
    ghost use Rattle.graph_session.specs.Session.{HaveSameDisk, shared_view, view, with_sink};

    /// Answers one line of a session, by one reply to the sink; a line of blanks and `quit` get
    /// none. At its return a change that was answered is on the disk. Where memory lacks, the reply
    /// says so and nothing changes.
    pub fn step<K: Sink>(&mut self, line: &[u8], output: &mut K) -> Turn
        ensures answers { AnswersLine D.Disk K.Sink (Whole line.now)
            (with_sink self.old output.old) (with_sink self.new output.new) result }
        // `reopen` leaves files that are no store, or a broken one, as they were.
        ensures careful { Spells line.now commands.Reopen
            → IsCareful D.Disk (view self.old).disk (view self.new).disk }
        // Between two lines no change is drafted, so what `answers` says over any disk holds.
        ensures no_draft { HasNoDraft (view self.old) → HasNoDraft (view self.new) }
        ensures same_disk { HaveSameDisk self.old self.new }
    {
        self.answer_line(line, output, &mut None)
    }

    /// Answers a line as `step` does, and puts into an empty set what the line's transaction has
    /// written, if its reply acknowledges one. That takes no memory: the set has room for 2,048
    /// records.
    pub fn step_tapped<K: Sink>(&mut self, line: &[u8], output: &mut K, tap: &mut WriteSet) -> Turn
        requires empty { tap.old.pairs ≡ [] }
        requires room { most_writes ≤ tap.old.room }
        ensures answers { TapsLine D.Disk K.Sink (Whole line.now) (with_sink self.old output.old)
            (with_sink self.new output.new) result tap.new.pairs }
        ensures careful { Spells line.now commands.Reopen
            → IsCareful D.Disk (view self.old).disk (view self.new).disk }
        ensures no_draft { HasNoDraft (view self.old) → HasNoDraft (view self.new) }
        ensures same_disk { HaveSameDisk self.old self.new }
    {
        let mut taken = Some(replace(tap, WriteSet::new(self.alloc)));
        let turn = self.answer_line(line, output, &mut taken);
        match taken {
            Some(set) => {
                *tap = set;
                turn
            }
            None => turn,
        }
    }

    /// Answers a line of more than 8,192 bytes.
    pub fn too_long<K: Sink>(&mut self, output: &mut K) -> Turn
        ensures answers { AnswersLine D.Disk K.Sink Long
            (with_sink self.old output.old) (with_sink self.new output.new) result }
        ensures no_draft { HasNoDraft (view self.old) → HasNoDraft (view self.new) }
        ensures same_disk { HaveSameDisk self.old self.new }
    {
        give_reply(
            &mut self.buffer,
            &[],
            output,
            Answer::Refused(Refusal::LongLine),
        )
    }

    /// Ends the sessions, drops an open transaction, and hands the disk back.
    pub fn close(self) -> &'d mut D
        ensures same_disk { result.ghost_name ≡ self.entry.store.base.disk.ghost_name }
        ensures disk { result.now ≡ self.entry.store.base.disk.now }
    {
        let Session { store, .. } = self;
        store.close()
    }

    /// Whether the disk has failed the sessions.
    pub fn health(&self) -> Health
        ensures { result ≡ (view self.now).console.health }
    {
        self.health
    }

    // Answers a line, and fills the set, if there is one, as `step_tapped` does.
    fn answer_line<K: Sink>(
        &mut self,
        line: &[u8],
        output: &mut K,
        tap: &mut Option<WriteSet>,
    ) -> Turn
        requires room { HasRoom tap.old }
        ensures answers { TapsAnswer D.Disk K.Sink (Whole line.now)
            (with_sink self.old output.old) (with_sink self.new output.new) result
            tap.old tap.new }
        ensures careful { Spells line.now commands.Reopen
            → IsCareful D.Disk (view self.old).disk (view self.new).disk }
        ensures no_draft { HasNoDraft (view self.old) → HasNoDraft (view self.new) }
        ensures same_disk { HaveSameDisk self.old self.new }
    {
        let ParsedLine { session, command } = parse_line(self.alloc, line);
        let prefix = prefix_of(session);
        match command {
            Ok(command) => self.answer(
                session.unwrap_or(WRITER),
                &command,
                prefix.as_bytes(),
                output,
                tap,
            ),
            Err(fault) => give_reply(
                &mut self.buffer,
                prefix.as_bytes(),
                output,
                Answer::from(fault),
            ),
        }
    }

    // Answers a line of a session that spells this command. The prefix stands before each line of
    // its reply.
    fn answer<K: Sink>(
        &mut self,
        session: u8,
        command: &Command,
        prefix: &[u8],
        output: &mut K,
        tap: &mut Option<WriteSet>,
    ) -> Turn
        requires room { HasRoom tap.old }
        requires form { HasForm command.now }
        requires session { session ≤ 7 }
        ensures answers { (line : List ℕ) → IsParsed line session command.now prefix.now
            → TapsAnswer D.Disk K.Sink (Whole line)
            (with_sink self.old output.old) (with_sink self.new output.new) result
            tap.old tap.new }
        ensures careful { command.now ≡ commands.Reopen
            → IsCareful D.Disk (view self.old).disk (view self.new).disk }
        ensures same_disk { HaveSameDisk self.old self.new }
    {
        match Job::of(command) {
            Job::Blank => Turn::Go,
            Job::Quit => Turn::Quit,
            Job::Snapshot(act) => self.serve_snapshot(session, act, prefix, output),
            Job::Act(act) => self.serve_act(session, act, prefix, output, tap),
            Job::Question(question) => self.serve_question(session, question, prefix, output),
        }
    }

    // Answers a line that asks for an act, which only the session that writes may do.
    fn serve_act<K: Sink>(
        &mut self,
        session: u8,
        act: Act<'_>,
        prefix: &[u8],
        output: &mut K,
        tap: &mut Option<WriteSet>,
    ) -> Turn
        requires room { HasRoom tap.old }
        requires form { HasForm (act_command act) }
        requires session { session ≤ 7 }
        ensures answers { (line : List ℕ)
            → IsParsed line session (act_command act.entry) prefix.now
            → TapsAnswer D.Disk K.Sink (Whole line)
            (with_sink self.old output.old) (with_sink self.new output.new) result
            tap.old tap.new }
        ensures careful { act_command act.entry ≡ commands.Reopen
            → IsCareful D.Disk (view self.old).disk (view self.new).disk }
        ensures same_disk { HaveSameDisk self.old self.new }
    {
        if session != WRITER {
            return give_reply(
                &mut self.buffer,
                prefix,
                output,
                Answer::Refused(Refusal::ReadOnly),
            );
        }
        if self.refuses(act) {
            return give_reply(
                &mut self.buffer,
                prefix,
                output,
                Answer::Refused(Refusal::Failed),
            );
        }
        let answer = self.settle(act, tap);
        give_reply(&mut self.buffer, prefix, output, answer)
    }

    // Whether the disk has failed the session, which then refuses the act.
    fn refuses(&self, act: Act<'_>) -> bool
        ensures yes { IsTrue result → (self.now.health ≡ healths.Failed)
            × (act.entry ≢ acts.Reopen) }
        ensures no { result ≡ false → ServesAct (view self.now).console act.entry }
    {
        !matches!(act, Act::Reopen) && matches!(self.health, Health::Failed)
    }

    // Carries out an act. It has no sink: what is said of the disk at its return holds before a
    // byte of the reply is given.
    fn settle(&mut self, act: Act<'_>, tap: &mut Option<WriteSet>) -> Answer
        requires room { HasRoom tap.old }
        requires served { ServesAct (view self.old).console act }
        requires form { HasForm (act_command act) }
        ensures settles { SettlesCommand D.Disk (act_command act.entry)
            (view self.old) (view self.new) (reply_of result) }
        ensures keeps { KeepsOlds D.Disk (act_command act.entry)
            (shared_view self.old) (reply_of result) (shared_view self.new) }
        ensures taps { Takes (TapsCommand D.Disk (act_command act.entry)
            (view self.old) (reply_of result) (view self.new)) tap.old tap.new }
        ensures careful { act_command act.entry ≡ commands.Reopen
            → IsCareful D.Disk (view self.old).disk (view self.new).disk }
        ensures same_disk { HaveSameDisk self.old self.new }
    {
        match act {
            Act::Begin => self.begin(),
            Act::Commit => self.commit(tap),
            Act::Rollback => self.rollback(),
            Act::Checkpoint => self.checkpoint(),
            Act::Reopen => self.reopen(),
            Act::Change(change) => self.change(change, tap),
        }
    }

    // Answers a line that reads the graph.
    fn serve_question<K: Sink>(
        &mut self,
        session: u8,
        question: Question<'_>,
        prefix: &[u8],
        output: &mut K,
    ) -> Turn
        requires form { HasForm (question_command question) }
        requires session { session ≤ 7 }
        ensures answers { (line : List ℕ)
            → IsParsed line session (question_command question.entry) prefix.now
            → AnswersLine D.Disk K.Sink (Whole line)
            (with_sink self.old output.old) (with_sink self.new output.new) result }
        ensures same_disk { HaveSameDisk self.old self.new }
    {
        if session != WRITER {
            return self.read_snapshot(session, question, prefix, output);
        }
        match self.health {
            Health::Failed => give_reply(
                &mut self.buffer,
                prefix,
                output,
                Answer::Refused(Refusal::Failed),
            ),
            Health::Live => {
                let context = Context {
                    alloc: self.alloc,
                    names: &self.names,
                };
                reply_question(
                    context,
                    &mut self.store,
                    question,
                    &mut self.buffer,
                    prefix,
                    output,
                )
            }
        }
    }
}
