//! Packets in, replies out, until the debugger leaves.
ghost use Rattle.std.specs.Prelude.{◌≡◌};
ghost use Rattle.gdbserver.specs.Debugging.{OnlyAdds};

use crate::dispatch::text_length;
use crate::peer::Peer;
use crate::session::{Flow, NO_MEMORY, Session};
use gdbstate::Someone;
use gdbwire::{Heard, Reader, parse};
use std::alloc::{AllocError, Global};
use timeline::Timeline;

/// How many bytes are read at once.
const MOST_READ: usize = 4096;

// The text that a packet of this body ends with.
fn text_of(body: &[u8], count: usize) -> &[u8] {
    let from = body.len().saturating_sub(count);
    match body.get(from..) {
        Some(text) => text,
        None => body,
    }
}

impl Session {
    // Makes the answer to a body; a packet that is not known has an empty one.
    #[tactic(auto, using(crate::proofs::Adding::adding))]
    fn answer_body<P: Peer>(
        &mut self,
        timeline: &mut Timeline,
        peer: &mut P,
        body: &[u8],
    ) -> Result<Flow, AllocError>
        ensures { OnlyAdds timeline.old timeline.new }
    {
        let Some(packet) = parse(body) else {
            return Ok(Flow::Reply);
        };
        let text = text_of(body, text_length(packet));
        self.answer(timeline, peer, packet, text)
    }

    // Makes the answer to a body, or one that says that the host has no memory.
    fn try_answer<P: Peer>(
        &mut self,
        timeline: &mut Timeline,
        peer: &mut P,
        body: &[u8],
    ) -> Result<Flow, AllocError>
        ensures { OnlyAdds timeline.old timeline.new }
    {
        match self.answer_body(timeline, peer, body) {
            Ok(flow) => Ok(flow),
            Err(_) => {
                self.body.clear();
                self.put_error(NO_MEMORY)
            }
        }
    }

    // Replies to a body, and returns whether there may be more.
    #[tactic(auto, using(crate::proofs::Adding::adding))]
    fn respond<P: Peer>(
        &mut self,
        timeline: &mut Timeline,
        peer: &mut P,
        body: &[u8],
    ) -> Result<bool, AllocError>
        ensures { OnlyAdds timeline.old timeline.new }
    {
        if self.acks && !peer.say(b"+") {
            return Ok(false);
        }
        self.body.clear();
        self.frames.clear();
        let flow = self.try_answer(timeline, peer, body)?;
        if flow == Flow::Leave {
            return Ok(false);
        }
        self.send()?;
        Ok(peer.say(self.frames.as_slice()) && flow == Flow::Reply)
    }

    // Replies to a body that is too long.
    fn respond_too_long<P: Peer>(&mut self, peer: &mut P) -> Result<bool, AllocError> {
        if self.acks && !peer.say(b"+") {
            return Ok(false);
        }
        self.body.clear();
        self.frames.clear();
        self.put_whether(false)?;
        self.send()?;
        Ok(peer.say(self.frames.as_slice()))
    }

    // Does what is heard, and returns whether there may be more.
    #[tactic(auto, using(crate::proofs::Adding::adding))]
    fn take<P: Peer>(
        &mut self,
        timeline: &mut Timeline,
        peer: &mut P,
        heard: Heard,
        body: &[u8],
    ) -> Result<bool, AllocError>
        ensures { OnlyAdds timeline.old timeline.new }
    {
        match heard {
            Heard::Packet => self.respond(timeline, peer, body),
            Heard::TooLong => self.respond_too_long(peer),
            Heard::Damaged => Ok(peer.say(b"-")),
            Heard::Refused => Ok(peer.say(self.frames.as_slice())),
            Heard::Acknowledged | Heard::Interrupt => Ok(true),
        }
    }

    // Takes bytes, and returns whether there may be more.
    #[tactic(auto, using(crate::proofs::Adding::adding))]
    fn take_all<P: Peer>(
        &mut self,
        timeline: &mut Timeline,
        peer: &mut P,
        reader: &mut Reader,
        bytes: &[u8],
    ) -> Result<bool, AllocError>
        ensures { OnlyAdds timeline.old timeline.new }
    {
        for byte in bytes {
            if let Some(heard) = reader.hear(*byte)
                && !self.take(timeline, peer, heard, reader.body())?
            {
                return Ok(false);
            }
        }
        Ok(true)
    }
}

// Reads and replies, up to the end.
#[tactic(auto, using(crate::proofs::Adding::adding))]
fn serve<P: Peer>(
    session: &mut Session,
    timeline: &mut Timeline,
    peer: &mut P,
    reader: &mut Reader,
) -> Result<(), AllocError>
    ensures { OnlyAdds timeline.old timeline.new }
{
    let mut buffer = [0; MOST_READ];
    for _read in 0..u64::MAX {
        let count = peer.hear(&mut buffer);
        let Some(bytes) = buffer.get(..count) else {
            return Ok(());
        };
        if bytes.is_empty() || !session.take_all(timeline, peer, reader, bytes)? {
            return Ok(());
        }
    }
    Ok(())
}

/// Replies to what a debugger sends, until it leaves. Whatever bytes come, the start and the events of the line stay as
/// they were, and only what is typed at the end comes after them; the line's machine is at the run of the first of
/// them. An error says that the host has no memory for a reply.
#[tactic(auto, using(crate::proofs::Adding::adding))]
pub fn debug<P: Peer>(
    alloc: Global,
    timeline: &mut Timeline,
    peer: &mut P,
) -> Result<(), AllocError>
    ensures { OnlyAdds timeline.old timeline.new }
{
    let mut session = Session::new(alloc);
    let mut reader = Reader::new(alloc)?;
    let _moved = timeline.forward(&Someone, u64::MAX);
    serve(&mut session, timeline, peer, &mut reader)
}
