//! The files that gdb has opened: programs, of which it reads the symbols.
ghost use Rattle.std.specs.Prelude.{[], ◌+◌, ◌≡◌, ◌<◌, ◌≢◌, EachIndex, IfOk, MatchOption, None, OnErr, Some, is_some};
ghost use Rattle.std.specs.Prelude.{length, option_map, slice_index_or, slice_set, true};
ghost use Rattle.gdbanswers.specs.Files.{AllOpen, Opens, closed, file_at};

use std::alloc::{AllocError, Global};
use unixmodel::limits::DESCRIPTORS;

/// Open files, by the numbers from 1 on.
#[derive(Drop)]
pub struct OpenFiles {
    files: Vec<Option<Vec<u8>>>,
}

impl OpenFiles {
    /// No open files.
    pub fn new(alloc: Global) -> OpenFiles
        ensures { result.files.items ≡ [] }
    {
        OpenFiles {
            files: Vec::new(alloc),
        }
    }

    // The index of a file that is closed.
    fn free(&self) -> Option<usize>
        ensures { MatchOption result (AllOpen self.now.files.items)
            (λ index. (index < length self.now.files.items) × (slice_index_or self.now.files.items index None ≡ None)) }
    {
        for index in 0..self.files.len() {
            if self.files[index].is_none() {
                return Some(index);
            }
        }
        None
    }

    /// Opens a file with these bytes, and returns its number; `None` where too many are open.
    pub fn open(&mut self, bytes: Vec<u8>) -> Result<Option<u64>, AllocError>
        ensures { IfOk result (λ number. MatchOption number
            ((self.new.files.items ≡ self.old.files.items) × AllOpen self.old.files.items)
            (Opens self.old.files.items self.new.files.items bytes)) }
    {
        if let Some(index) = self.free() {
            self.files[index] = Some(bytes);
            return Ok(Some(index as u64 + 1));
        }
        if self.files.len() >= DESCRIPTORS {
            return Ok(None);
        }
        self.files.push(Some(bytes))?;
        Ok(Some(self.files.len() as u64))
    }

    /// The bytes of an open file.
    pub fn bytes(&self, number: u64) -> Option<&[u8]>
        ensures { option_map (λ bytes. bytes.now) result
            ≡ option_map (λ file. file.items) (file_at self.now.files.items number) }
    {
        let index = number.checked_sub(1)?;
        let file = self.files.get(index as usize)?;
        match file {
            Some(bytes) => Some(bytes.as_slice()),
            None => None,
        }
    }

    /// Closes a file, and returns whether it was open.
    pub fn close(&mut self, number: u64) -> bool
        ensures was { result ≡ is_some (file_at self.old.files.items number) }
        ensures closed { self.new.files.items ≡ closed self.old.files.items number }
    {
        if number == 0 || number > self.files.len() as u64 {
            return false;
        }
        let index = (number - 1) as usize;
        let was_open = self.files[index].is_some();
        self.files[index] = None;
        was_open
    }
}
