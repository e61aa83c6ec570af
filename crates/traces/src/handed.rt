//! What a call was handed, for the lines of events: its arguments, and the texts and numbers in memory.

use crate::call_text::{count_read, count_written, ends_of, status_of};
use crate::memory;
use arrayvec::ArrayVec;
use blockdev::BlockDev;
use jsonrows::{Argument, Bytes, Handed, MOST_ARGUMENTS, arguments_of, int};
use machine::{Call, Machine};
use std::alloc::{AllocError, Global};
use sv39::Translate;
use tracetext::Asked;

/// The most bytes of a path.
const MOST_PATH: u64 = 127;

/// The most arguments of a program, with the 0 after them.
const MOST_STRINGS: u64 = 32;

/// The arguments of a call.
pub(crate) fn arguments_asked(asked: &Asked) -> ArrayVec<Argument, MOST_ARGUMENTS> {
    let [a0, a1, a2, ..] = asked.arguments;
    arguments_of(asked.call(), a0, a1, a2)
}

/// Reads what a process was handed in memory, and keeps whether a text was cut.
#[derive(Drop)]
struct Reader<'a, D: BlockDev, T: Translate> {
    alloc: Global,
    machine: &'a Machine<D, T>,
    pid: u32,
    // The most bytes of a text.
    most: u64,
    is_cut: bool,
}

impl<D: BlockDev, T: Translate> Reader<'_, D, T> {
    fn byte(&self, address: u64) -> Option<u8> {
        memory::byte(self.machine, self.pid, address)
    }

    // The text at an address up to a 0, or its first bytes; `None` where one can't be read.
    fn string(&mut self, address: u64, most: u64) -> Result<Option<Bytes>, AllocError> {
        let mut bytes = Vec::new(self.alloc);
        for at in 0..most {
            match self.byte(address.wrapping_add(at)) {
                None => return Ok(None),
                Some(0) => return Ok(Some(Bytes(bytes))),
                Some(byte) => bytes.push(byte)?,
            }
        }
        self.is_cut = self.is_cut || self.byte(address.wrapping_add(most)) != Some(0);
        Ok(Some(Bytes(bytes)))
    }

    // The path at an address.
    fn path(&mut self, address: u64) -> Result<Option<Bytes>, AllocError> {
        self.string(address, MOST_PATH)
    }

    // The texts that an array of addresses names, which ends with a 0.
    fn strings(&mut self, address: u64) -> Result<Option<Vec<Bytes>>, AllocError> {
        let mut strings = Vec::new(self.alloc);
        for index in 0..MOST_STRINGS {
            let entry = address.wrapping_add(8 * index);
            let string = match memory::double(self.machine, self.pid, entry) {
                Some(0) => break,
                Some(pointer) => self.string(pointer, self.most)?,
                None => None,
            };
            match string {
                Some(string) => strings.push(string)?,
                None => return Ok(None),
            }
        }
        Ok(Some(strings))
    }

    // The bytes from an address on, of which there are `count`, or the first of them.
    fn data(&mut self, address: u64, count: u64) -> Result<Option<Bytes>, AllocError> {
        let mut bytes = Vec::new(self.alloc);
        for at in 0..count.min(self.most) {
            match self.byte(address.wrapping_add(at)) {
                Some(byte) => bytes.push(byte)?,
                None => return Ok(None),
            }
        }
        self.is_cut = count > self.most;
        Ok(Some(Bytes(bytes)))
    }

    // The bytes of a buffer, where it is known how many they are.
    fn buffer(&mut self, asked: &Asked, count: Option<u64>) -> Result<Handed, AllocError> {
        let [_, address, ..] = asked.arguments;
        let bytes = match count {
            Some(count) => self.data(address, count)?,
            None => None,
        };
        let mut handed = Handed::nothing();
        handed.data = Some(bytes);
        handed.cut = Some(self.is_cut);
        Ok(handed)
    }

    // A path alone.
    fn named(&mut self, asked: &Asked) -> Result<Handed, AllocError> {
        let [address, ..] = asked.arguments;
        let mut handed = Handed::nothing();
        handed.path = Some(self.path(address)?);
        Ok(handed)
    }

    // The path and the arguments of a program.
    fn program(&mut self, asked: &Asked) -> Result<Handed, AllocError> {
        let [_, strings, ..] = asked.arguments;
        let mut handed = self.named(asked)?;
        self.is_cut = false;
        handed.argv = Some(self.strings(strings)?);
        handed.cut = Some(self.is_cut);
        Ok(handed)
    }

    // Two paths.
    fn link(&mut self, asked: &Asked) -> Result<Handed, AllocError> {
        let [_, new, ..] = asked.arguments;
        let mut handed = self.named(asked)?;
        handed.new_path = Some(self.path(new)?);
        Ok(handed)
    }

    // The status that a call of wait filled in.
    fn status(&self, asked: &Asked, answer: Option<i64>) -> Handed {
        let [address, ..] = asked.arguments;
        let mut handed = Handed::nothing();
        handed.status = match status_of(self.machine, asked, answer) {
            Some(status) if address != 0 => Some(Some(status.cast_signed())),
            _ => Some(None),
        };
        handed
    }

    // The descriptors that a call of pipe filled in.
    fn ends(&self, asked: &Asked, answer: Option<i64>) -> Handed {
        let mut handed = Handed::nothing();
        handed.ends = match ends_of(self.machine, asked, answer) {
            Some(ends) => Some(Some([int(ends), int(ends / 0x1_0000_0000)])),
            None => Some(None),
        };
        handed
    }
}

/// What a call was handed in memory, or filled in if its answer is known; texts have `most` bytes at most.
pub(crate) fn handed_of<D: BlockDev, T: Translate>(
    alloc: Global,
    machine: &Machine<D, T>,
    asked: &Asked,
    answer: Option<i64>,
    most: usize,
) -> Result<Handed, AllocError> {
    let mut reader = Reader {
        alloc,
        machine,
        pid: asked.pid,
        most: most as u64,
        is_cut: false,
    };
    match asked.call() {
        Some(Call::Read) => reader.buffer(asked, count_read(answer)),
        Some(Call::Write) => reader.buffer(asked, count_written(asked)),
        Some(Call::Exec) => reader.program(asked),
        Some(Call::Link) => reader.link(asked),
        Some(Call::Open | Call::Mknod | Call::Chdir | Call::Unlink | Call::Mkdir) => {
            reader.named(asked)
        }
        Some(Call::Wait) => Ok(reader.status(asked, answer)),
        Some(Call::Pipe) => Ok(reader.ends(asked, answer)),
        _ => Ok(Handed::nothing()),
    }
}
