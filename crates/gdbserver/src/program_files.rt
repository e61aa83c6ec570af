//! The files of programs.
use crate::peer::Peer;
use crate::session::{Flow, Session};
use gdbreplies::{push_file_part, push_file_status, push_no_file, push_opened, push_part};
use gdbwire::{Part, cut, push_decoded};
use std::alloc::{AllocError, Global};
use timeline::Timeline;

// The path that a text begins with, as digits.
fn path_in(alloc: Global, text: &[u8]) -> Result<Option<Vec<u8>>, AllocError> {
    let Some((digits, _)) = cut(b',', text) else {
        return Ok(None);
    };
    let mut path = Vec::new(alloc);
    if push_decoded(digits, &mut path)? {
        Ok(Some(path))
    } else {
        Ok(None)
    }
}

impl Session {
    // Opens a file with these bytes.
    fn open_bytes(&mut self, bytes: Vec<u8>) -> Result<Flow, AllocError> {
        match self.files.open(bytes)? {
            Some(number) => push_opened(number, &mut self.body)?,
            None => push_no_file(&mut self.body)?,
        }
        Ok(Flow::Reply)
    }

    /// `vFile:open:`
    pub(crate) fn open_file<P: Peer>(
        &mut self,
        peer: &mut P,
        text: &[u8],
    ) -> Result<Flow, AllocError> {
        if let Some(path) = path_in(self.alloc, text)?
            && let Some(bytes) = peer.program(path.as_slice())
        {
            return self.open_bytes(bytes);
        }
        push_no_file(&mut self.body)?;
        Ok(Flow::Reply)
    }

    /// `vFile:fstat:`
    pub(crate) fn show_size(&mut self, number: u64) -> Result<Flow, AllocError> {
        match self.files.bytes(number) {
            Some(bytes) => push_file_status(bytes.len() as u64, &mut self.body)?,
            None => push_no_file(&mut self.body)?,
        }
        Ok(Flow::Reply)
    }

    /// `vFile:pread:`
    pub(crate) fn read_file(&mut self, number: u64, part: Part) -> Result<Flow, AllocError> {
        match self.files.bytes(number) {
            Some(bytes) => push_file_part(bytes, part, &mut self.body)?,
            None => push_no_file(&mut self.body)?,
        }
        Ok(Flow::Reply)
    }

    /// `vFile:close:`
    pub(crate) fn close_file(&mut self, number: u64) -> Result<Flow, AllocError> {
        if self.files.close(number) {
            return self.put(b"F0");
        }
        push_no_file(&mut self.body)?;
        Ok(Flow::Reply)
    }

    /// `qXfer:exec-file:read:`
    pub(crate) fn show_path(
        &mut self,
        timeline: &Timeline,
        pid: u64,
        part: Part,
    ) -> Result<Flow, AllocError> {
        let Ok(pid) = u32::try_from(pid) else {
            return self.put_whether(false);
        };
        let pid = self.chosen(timeline.machine(), pid);
        let path = self.tracer.names.path(pid, timeline.at());
        push_part(path, part, &mut self.body)?;
        Ok(Flow::Reply)
    }
}
