//! Which packet has which reply.
ghost use Rattle.std.specs.Prelude.{◌≡◌};
ghost use Rattle.gdbserver.specs.Debugging.{OnlyAdds};

use crate::peer::Peer;
use crate::session::{Flow, READ_ONLY, Session};
use gdbanswers::{RESUME_KINDS, SUPPORTED, has_feature};
use gdbwire::{Numbered, Packet, Part, Parted, Texted, Thread, Threaded, Word};
use std::alloc::AllocError;
use timeline::Timeline;

/// How many bytes of text a packet ends with.
pub(crate) fn text_length(packet: Packet) -> usize {
    match packet {
        Packet::Texted(_, count) | Packet::Set(_, _, count) | Packet::Clear(_, _, count) => count,
        _ => 0,
    }
}

impl Session {
    // `QStartNoAckMode`
    fn stop_acks(&mut self) -> Result<Flow, AllocError> {
        self.acks = false;
        self.put(b"OK")
    }

    // `!`
    fn stay(&mut self) -> Result<Flow, AllocError> {
        self.stays = true;
        self.put(b"OK")
    }

    // `vKill;`
    fn kill(&mut self) -> Result<Flow, AllocError> {
        self.put(b"OK")?;
        Ok(if self.stays {
            Flow::Reply
        } else {
            Flow::LastReply
        })
    }

    // `qSupported:`. A debugger that knows but one process is of no use.
    fn agree(&mut self, text: &[u8]) -> Result<Flow, AllocError> {
        if !has_feature(text, b"multiprocess+") {
            self.put(b"E.this debugger needs multiprocess+")?;
            return Ok(Flow::LastReply);
        }
        self.tracer.points.at_forks = has_feature(text, b"fork-events+");
        self.tracer.points.at_execs = has_feature(text, b"exec-events+");
        self.put(SUPPORTED)
    }

    // Words about the session and the processes.
    fn answer_plain(&mut self, timeline: &Timeline, word: Word) -> Result<Flow, AllocError> {
        match word {
            Word::StartNoAcks => self.stop_acks(),
            Word::Extend => self.stay(),
            Word::LastStop => self.last_stop(timeline),
            Word::FirstThreads => self.list_threads(timeline),
            Word::MoreThreads => self.put(b"l"),
            Word::CurrentThread => self.show_current(timeline),
            Word::IsAttached => self.put(b"1"),
            Word::Registers => self.show_registers(timeline),
            Word::ResumeKinds => self.put(RESUME_KINDS),
            Word::HostInfo => self.show_host(),
            Word::ProcessInfo => self.show_process(timeline),
            Word::Kill | Word::StepBack | Word::ContinueBack => Ok(Flow::Leave),
        }
    }

    // Words.
    fn answer_word(&mut self, timeline: &mut Timeline, word: Word) -> Result<Flow, AllocError>
        ensures { timeline.new ≡ record timeline.old { at = timeline.new.at } }
    {
        match word {
            Word::StepBack => self.step_back(timeline),
            Word::ContinueBack => self.continue_back(timeline),
            _ => self.answer_plain(timeline, word),
        }
    }

    // Words with a number.
    fn answer_numbered(
        &mut self,
        timeline: &Timeline,
        kind: Numbered,
        number: u64,
    ) -> Result<Flow, AllocError> {
        match kind {
            Numbered::FileSystem => self.put(b"F0"),
            Numbered::FileStatus => self.show_size(number),
            Numbered::CloseFile => self.close_file(number),
            Numbered::Register => self.show_register(timeline, number),
            Numbered::Detach => self.detach(number),
            Numbered::KillProcess => self.kill(),
            Numbered::IsAttachedTo => self.put(b"1"),
        }
    }

    // Words with a thread.
    fn answer_threaded(
        &mut self,
        timeline: &Timeline,
        kind: Threaded,
        thread: Thread,
    ) -> Result<Flow, AllocError> {
        match kind {
            Threaded::Words => self.show_words(timeline, thread),
            Threaded::IsAlive => self.show_alive(timeline, thread),
            Threaded::Looks => self.look_at(timeline, thread),
            Threaded::Steps => self.step_by(thread),
        }
    }

    // Words with a part.
    fn answer_parted(
        &mut self,
        timeline: &Timeline,
        kind: Parted,
        part: Part,
    ) -> Result<Flow, AllocError> {
        match kind {
            Parted::Memory => self.show_memory(timeline, part),
            Parted::Description => self.describe(part),
        }
    }

    // Words with a text; a recorded run can't be written.
    #[tactic(auto, using(crate::proofs::Adding::adding))]
    fn answer_texted<P: Peer>(
        &mut self,
        timeline: &mut Timeline,
        peer: &mut P,
        kind: Texted,
        text: &[u8],
    ) -> Result<Flow, AllocError>
        ensures { OnlyAdds timeline.old timeline.new }
    {
        match kind {
            Texted::Supported => self.agree(text),
            Texted::Command => self.command(timeline, text),
            Texted::Resume => self.resume(timeline, text),
            Texted::Run => self.begin_again(timeline),
            Texted::OpenFile => self.open_file(peer, text),
            Texted::WriteMemory
            | Texted::WriteBytes
            | Texted::WriteRegisters
            | Texted::WriteRegister => self.put_error(READ_ONLY),
        }
    }

    /// Puts the answer to a packet, whose text is the last argument.
    #[tactic(auto, using(crate::proofs::Adding::adding))]
    pub(crate) fn answer<P: Peer>(
        &mut self,
        timeline: &mut Timeline,
        peer: &mut P,
        packet: Packet,
        text: &[u8],
    ) -> Result<Flow, AllocError>
        ensures { OnlyAdds timeline.old timeline.new }
    {
        match packet {
            Packet::Word(word) => self.answer_word(timeline, word),
            Packet::Numbered(kind, number) => self.answer_numbered(timeline, kind, number),
            Packet::Threaded(kind, thread) => self.answer_threaded(timeline, kind, thread),
            Packet::Parted(kind, part) => self.answer_parted(timeline, kind, part),
            Packet::Texted(kind, _) => self.answer_texted(timeline, peer, kind, text),
            Packet::ProgramPath(pid, part) => self.show_path(timeline, pid, part),
            Packet::ReadFile(number, part) => self.read_file(number, part),
            Packet::Set(point, part, _) => self.set_point(timeline, point, part, text),
            Packet::Clear(point, part, _) => self.clear_point(timeline, point, part),
        }
    }
}
