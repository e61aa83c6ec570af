//! The files that the commands of the program work on.
use anyhow::bail;
use commands::perform::perform;
use commands::{Asm, Host, HostFault, Job, Migrate, Mkfs, NoScreen};
use std::collections::BTreeMap;
use std::fs;
use std::rt::Files;

/// The files of the folder that the program runs in, and those that were made, which are kept in memory.
#[derive(Drop)]
pub struct Desk<'a, R> {
    rt: &'a R,
    made: BTreeMap<String, Vec<u8>>,
}

// A job was refused, with this text.
fn refuse(told: &[u8]) -> anyhow::Result<()> {
    bail!("{}", str::from_utf8(told)?)
}

impl<'a, R: Files + AllocGlobal> Desk<'a, R> {
    /// Nothing was made yet.
    pub fn new(rt: &'a R) -> Desk<'a, R> {
        Desk {
            rt,
            made: BTreeMap::new(rt.alloc()),
        }
    }

    /// The bytes of a file.
    pub fn file(&self, name: &str) -> anyhow::Result<Vec<u8>> {
        if let Some(bytes) = self.made.get(name) {
            return Ok(bytes.clone()?);
        }
        Ok(fs::read(self.rt, name)?)
    }

    /// Keeps a file in memory.
    pub fn keep(&mut self, name: &str, bytes: Vec<u8>) -> anyhow::Result<()> {
        self.made
            .insert(String::from_str(self.rt.alloc(), name)?, bytes)?;
        Ok(())
    }

    // Does a job of the program, whatever it prints.
    fn perform(&mut self, job: &Job<'_>) -> anyhow::Result<()> {
        let alloc = self.rt.alloc();
        let mut printed = Vec::new(alloc);
        let mut told = Vec::new(alloc);
        if perform(alloc, job, self, &mut printed, &mut told) == 0 {
            Ok(())
        } else {
            refuse(told.as_slice())
        }
    }

    /// Assembles a text.
    pub fn assemble(&mut self, text: &str, elf: &str) -> anyhow::Result<()> {
        self.perform(&Job::Asm(Asm { text, elf }))
    }

    /// Makes an image of `size` blocks and `inodes` inodes.
    pub fn make(
        &mut self,
        manifest: &str,
        (size, inodes): (u32, u32),
        image: &str,
    ) -> anyhow::Result<()> {
        self.perform(&Job::Mkfs(Mkfs {
            size,
            inodes,
            manifest,
            image,
        }))
    }

    /// Makes of an image of the small format one of the large format.
    pub fn migrate(&mut self, old: &str, new: &str) -> anyhow::Result<()> {
        self.perform(&Job::Migrate(Migrate { old, new }))
    }
}

impl<R: Files + AllocGlobal> Host for Desk<'_, R> {
    type Screen = NoScreen;

    fn read(&mut self, name: &str) -> Result<Vec<u8>, HostFault> {
        self.file(name).map_err(|_| HostFault)
    }

    fn write(&mut self, name: &str, bytes: &[u8]) -> Result<(), HostFault> {
        let Ok(bytes) = Vec::from_slice(self.rt.alloc(), bytes) else {
            return Err(HostFault);
        };
        self.keep(name, bytes).map_err(|_| HostFault)
    }
}
