//! What becomes of processes: who gets the hart, whose call returns, who ends.
ghost use Rattle.std.specs.Prelude.{◌≡◌, false, true};
ghost use Rattle.tracetext.specs.Pens.{has};
ghost use Rattle.tracetext.specs.declared.lines.Outcome.TheVariants.{Resumed};
ghost use Rattle.tracetext.specs.declared.pen.Form.TheVariants as form;
ghost use Rattle.traces.specs.Saying.{EndsWith, IsHeld, ShowsCall, call_line};

use super::beginning::done_of;
use super::{Tracer, answer_of};
use crate::faults::fault_text;
use crate::lanes::{Doing, Exit, Lane, place_of};
use blockdev::BlockDev;
use jsonrows::{How, Kind, int};
use machine::{Call, Machine, ProcessState, Seen};
use next_fault::fault_of;
use sv39::Translate;
use tracetext::commits::Note;
use tracetext::lines::{Outcome, Says};
use tracetext::spans::{Arrow, CALLS, HART, Point, Span};
use tracetext::{Asked, Sinks};

// Whether a turn picked a process that did this before: it got the hart, ended, or read or wrote more.
fn is_picked<D: BlockDev, T: Translate>(
    machine: &Machine<D, T>,
    before: Doing,
    seen: &Seen,
) -> bool {
    match (before, seen.state) {
        (Doing::Rests | Doing::Waits(_), ProcessState::Running | ProcessState::Zombie(_)) => true,
        (Doing::Waits(done), ProcessState::Waiting(_)) => done_of(machine, seen.pid) != done,
        _ => false,
    }
}

impl<S: Sinks + Drop> Tracer<S> {
    // The process that a turn picked; `None` where it shows on none.
    fn picked<D: BlockDev, T: Translate>(&self, machine: &Machine<D, T>) -> Option<Seen> {
        for lane in self.lanes.iter() {
            if let Some(seen) = machine.inspect(lane.pid)
                && is_picked(machine, lane.doing, &seen)
            {
                return Some(seen);
            }
        }
        None
    }

    // What a turn did.
    pub(super) fn after_turn<D: BlockDev, T: Translate>(&mut self, machine: &Machine<D, T>) {
        let Some(seen) = self.picked(machine) else {
            return;
        };
        match seen.state {
            ProcessState::Running => self.runs(machine, &seen),
            ProcessState::Zombie(_) => self.killed(machine, seen.pid),
            _ => self.goes_on(machine, seen.pid),
        }
    }

    // A process got the hart, with the answer of its call, if it waited in one.
    fn runs<D: BlockDev, T: Translate>(&mut self, machine: &Machine<D, T>, seen: &Seen) {
        let pid = seen.pid;
        self.set_doing(pid, Doing::Runs);
        self.give_hart(Some(pid));
        if self.wanted.turns {
            self.say(pid, Says::Turn);
            self.note_turn(Kind::Turn, pid);
        }
        if let Some(asked) = self.take_pending(pid) {
            self.answered(machine, &asked, answer_of(seen), true);
        }
    }

    // The call that a process waits in.
    fn pending(&mut self, pid: u32) -> Option<Asked> {
        self.lane_mut(pid)?.pending
    }

    // Takes the call that a process waited in.
    fn take_pending(&mut self, pid: u32) -> Option<Asked> {
        self.lane_mut(pid)?.pending.take()
    }

    // Who killed a process first.
    fn killer(&mut self, pid: u32) -> Option<u32> {
        self.lane_mut(pid)?.killer
    }

    // A call that waits has written a part.
    fn goes_on<D: BlockDev, T: Translate>(&mut self, machine: &Machine<D, T>, pid: u32) {
        self.set_doing(pid, Doing::Waits(done_of(machine, pid)));
        let pending = self.pending(pid);
        self.draw_pipes(machine, pending.as_ref(), true);
    }

    // The timer took the hart from the process that had it.
    pub(super) fn after_tick(&mut self) {
        self.draw_tick();
        if let Some(pid) = self.running {
            if self.wanted.turns {
                self.say(pid, Says::Tick);
                self.note_turn(Kind::Tick, pid);
            }
            self.set_doing(pid, Doing::Rests);
            self.give_hart(None);
        }
    }

    // A call waits.
    pub(super) fn waits<D: BlockDev, T: Translate>(
        &mut self,
        machine: &Machine<D, T>,
        asked: &Asked,
    ) {
        self.say_call(asked, Outcome::Unfinished);
        self.note_wait(machine, asked);
        let done = done_of(machine, asked.pid);
        if let Some(lane) = self.lane_mut(asked.pid) {
            lane.doing = Doing::Waits(done);
            lane.pending = Some(*asked);
        }
        self.draw_pipes(machine, Some(asked), true);
        self.give_hart(None);
    }

    // Says what a call returned: of one that did in a turn by a line, of others with equal ones that may follow.
    fn say_return(&mut self, asked: &Asked, answer: i64, is_resumed: bool)
        ensures resumed { is_resumed ≡ true → ShowsCall self.new asked.now → has self.new.pen form.Text ≡ true
            → EndsWith (call_line self.new asked.now (Resumed answer)) (S.given self.new.pen.sinks form.Text) }
        ensures held { is_resumed ≡ false → ShowsCall self.new asked.now → has self.new.pen form.Text ≡ true
            → IsHeld self.new.row asked.now self.new.text answer }
    {
        if is_resumed {
            self.say_call(asked, Outcome::Resumed(answer));
        } else {
            self.say_answered(asked, answer);
        }
    }

    // A call returned, at once or in a turn.
    pub(super) fn answered<D: BlockDev, T: Translate>(
        &mut self,
        machine: &Machine<D, T>,
        asked: &Asked,
        answer: i64,
        is_resumed: bool,
    ) {
        let fills_in = matches!(asked.call(), Some(Call::Wait | Call::Pipe | Call::Read));
        if is_resumed || fills_in {
            self.describe(machine, asked, Some(answer));
            self.take_handed(machine, asked, Some(answer));
        }
        self.say_return(asked, answer, is_resumed);
        self.note_call(asked, answer);
        self.draw_call(asked, Some(answer));
        self.draw_pipes(machine, Some(asked), false);
        self.log_answer(machine, asked, answer);
        self.take_effect(machine, asked, answer);
    }

    // What a call that returned does to processes.
    fn take_effect<D: BlockDev, T: Translate>(
        &mut self,
        machine: &Machine<D, T>,
        asked: &Asked,
        answer: i64,
    ) {
        let pid = (answer.cast_unsigned() % 0x1_0000_0000) as u32;
        match asked.call() {
            Some(Call::Fork) if answer > 0 => self.born(machine, asked, pid),
            Some(Call::Wait) if answer > 0 => self.collected(asked, pid),
            Some(Call::Exec) if answer >= 0 => self.renamed(asked.pid),
            Some(Call::Kill) if answer == 0 => self.marked(asked),
            _ => (),
        }
    }

    // A process was forked.
    fn born<D: BlockDev, T: Translate>(
        &mut self,
        machine: &Machine<D, T>,
        asked: &Asked,
        child: u32,
    ) {
        let mut lane = Lane::new(child, Doing::Rests);
        if let Some(parent) = self.lane_mut(asked.pid) {
            lane.rename(parent.name.as_slice());
        }
        self.add_lane(lane);
        self.draw_birth(asked, child);
        self.log_process(machine, child);
    }

    // A process runs another program.
    fn renamed(&mut self, pid: u32) {
        if let Some(place) = place_of(self.lanes.as_slice(), pid)
            && let Some(lane) = self.lanes.get_mut(place)
        {
            lane.rename(self.path.as_slice());
        }
    }

    // A process was marked to be killed.
    fn marked(&mut self, asked: &Asked) {
        let [pid, ..] = asked.arguments;
        if let Some(lane) = self.lane_mut(int(pid).cast_unsigned())
            && !lane.has_ended()
            && lane.killer.is_none()
        {
            lane.killer = Some(asked.pid);
        }
    }

    // A process that had ended was waited for.
    fn collected(&mut self, asked: &Asked, child: u32) {
        let Some(place) = place_of(self.lanes.as_slice(), child) else {
            return;
        };
        self.draw_name(place);
        if place < self.lanes.len() {
            let lane = self.lanes.swap_remove(place);
            self.draw_end(asked, child, lane.exit);
        }
    }

    // Draws the arrow from where a process ended to the one that waited for it.
    fn draw_end(&mut self, asked: &Asked, child: u32, exit: Option<Exit>) {
        if let Some(Exit { at, lane }) = exit
            && self.shows_call(asked)
        {
            let from = Point {
                at,
                pid: child,
                lane,
            };
            let to = Point {
                at: self.at,
                pid: asked.pid,
                lane: CALLS,
            };
            self.draw_arrow(Arrow::End, from, to);
        }
    }

    // Where a process ends in a lane, if that is shown.
    fn exit(&self, lane: u8, is_shown: bool) -> Option<Exit> {
        if is_shown {
            Some(Exit { at: self.at, lane })
        } else {
            None
        }
    }

    // A process ended: where an arrow leaves is kept if its slice is shown.
    fn ends<D: BlockDev, T: Translate>(
        &mut self,
        machine: &Machine<D, T>,
        pid: u32,
        status: i32,
        exit: Option<Exit>,
    ) {
        if let Some(lane) = self.lane_mut(pid) {
            lane.doing = Doing::Ended;
            lane.pending = None;
            lane.exit = exit;
        }
        self.draw_pipes(machine, None, false);
        self.log(pid, Note::Ended(status));
        if self.running == Some(pid) {
            self.give_hart(None);
        }
    }

    // A process called exit.
    pub(super) fn left<D: BlockDev, T: Translate>(
        &mut self,
        machine: &Machine<D, T>,
        asked: &Asked,
    ) {
        let [status, ..] = asked.arguments;
        let status = int(status);
        self.say_call(asked, Outcome::Left);
        self.say(asked.pid, Says::Ended(status));
        self.note_exit(machine, asked.pid, How::Exit, status);
        self.draw_call(asked, None);
        let exit = self.exit(CALLS, self.shows_call(asked));
        self.ends(machine, asked.pid, status, exit);
    }

    // A process faulted.
    pub(super) fn faulted<D: BlockDev, T: Translate>(
        &mut self,
        machine: &Machine<D, T>,
        before: &Seen,
    ) {
        let (pid, pc) = (before.pid, before.pc);
        let raised = fault_of(machine, pid);
        let fault = fault_text(raised);
        self.say_fault(pid, fault, pc);
        self.say(pid, Says::Ended(-1));
        self.note_fault(before, raised);
        self.note_exit(machine, pid, How::Fault, -1);
        self.draw(pid, Span::fault(pid, self.at, fault));
        let exit = self.exit(HART, self.shows(pid));
        self.ends(machine, pid, -1, exit);
    }

    // Draws the call that a process waits in and that will not return.
    fn draw_unanswered<D: BlockDev, T: Translate>(&mut self, machine: &Machine<D, T>, pid: u32) {
        if let Some(asked) = self.pending(pid) {
            self.describe(machine, &asked, None);
            self.draw_call(&asked, None);
        }
    }

    // A process that was killed ended.
    pub(super) fn killed<D: BlockDev, T: Translate>(&mut self, machine: &Machine<D, T>, pid: u32) {
        let killer = self.killer(pid);
        self.say(pid, Says::Killed(killer));
        self.note_exit(machine, pid, How::Killed, -1);
        self.draw_unanswered(machine, pid);
        self.draw(pid, Span::moment(pid, "killed", self.at));
        let exit = self.exit(CALLS, self.shows(pid));
        self.ends(machine, pid, -1, exit);
    }

    // The hart goes to a process, or to none.
    fn give_hart(&mut self, pid: Option<u32>) {
        self.draw_run();
        self.running = pid;
        let since = self.at.saturating_add(1);
        if let Some(pid) = pid
            && let Some(lane) = self.lane_mut(pid)
        {
            lane.since = since;
        }
    }
}
