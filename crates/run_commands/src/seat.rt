//! The terminal of a session: standard input is its keyboard, and a file has its record.
ghost use Rattle.std.specs.Prelude.{◌≡◌, ◌≢◌, None, false, refl, true};
ghost use Rattle.run_commands.specs.ScriptFiles.{IsEmptyIn, IsWrittenOut, new_recorder};
ghost use Rattle.run_commands.specs.declared.seat.Typed.TheVariants.{Key};

use crate::progress::Meter;
use crate::scribe::Scribe;
use arrayvec::ArrayVec;
use blockdev::BlockDev;
use commandline::Live;
use driver::{Given, Mood, Terminal};
use events::Record;
use host::{Failure, Host, Screen, Why};
use line_editor::{Editor, Keys};
use machine::{Machine, ProcessState, Seen};
use std::alloc::Global;
use std::fmt;
use std::io::Write;
use sv39::Translate;
use unixmodel::limits::{MOST_KEYS, PROCESSES};

/// Control-A: the key after it is for the session, as in QEMU.
const ESCAPE: u8 = 0x01;

/// Control-P: the processes are shown.
const SHOW: u8 = 0x10;

/// The key that ends a typed line.
const LINE_END: u8 = b'\n';

/// The key that ends a session after an escape.
const LEAVE: u8 = b'x';

// What a typed byte is.
#[derive(Clone, Copy)]
enum Typed {
    Key(u8),
    Escape,
    Show,
    End,
}

// What is shown of a process: its pid, what it does, and its size.
#[derive(Clone, Copy)]
struct Line(Seen);

impl fmt::Display for Line {
    fn fmt<W: fmt::Write>(&self, f: &mut fmt::Formatter<W>) -> fmt::Result {
        let (pid, size) = (self.0.pid, self.0.size);
        let does = match self.0.state {
            ProcessState::Running => "run",
            ProcessState::Ready => "runble",
            ProcessState::Waiting(_) => "sleep",
            ProcessState::Zombie(_) => "zombie",
        };
        writeln!(f, "{pid} {does} {size}")
    }
}

/// The terminal of a session.
#[derive(Drop)]
pub struct Seat<'a, 'b, H: Host, S, E> {
    // What has the host, and records in its file.
    scribe: Scribe<'a, 'b, H>,
    meter: &'b Meter<S>,
    stderr: &'b mut E,
    // Whether standard input is a terminal that waits only a moment.
    is_terminal: bool,
    // What was read and not given yet.
    typed: ArrayVec<u8, MOST_KEYS>,
    // Whether the last byte was an escape.
    is_escaped: bool,
    // The line that is edited, where lines are.
    editor: Option<Editor>,
    // The keys of a line that is finished, as far as they were not given yet.
    finished: Keys,
    // Why standard input could not be read.
    unread: Option<Failure<'a>>,
}

impl<'a, 'b, H: Host, S: Screen, E: Write> Seat<'a, 'b, H, S, E> {
    /// A terminal over a host, whose record goes to a file that is there and is empty. Lines are edited where they are
    /// shown.
    pub(crate) fn new(
        alloc: Global,
        host: &'b mut H,
        meter: &'b Meter<S>,
        stderr: &'b mut E,
        words: &Live<'a>,
    ) -> Self
        requires { IsEmptyIn words.now.script (H.files host.old) }
        ensures { result.scribe ≡ new_recorder (H.files host.old) host.entry.ghost_name words.now.script }
    {
        let editor = if words.edit && words.terminal && meter.has_screen() {
            Some(Editor::new(alloc))
        } else {
            None
        };
        Seat {
            scribe: Scribe::begun(alloc, host, words.script),
            meter,
            stderr,
            is_terminal: words.terminal,
            typed: ArrayVec::new(),
            is_escaped: false,
            editor,
            finished: Keys::new(),
            unread: None,
        }
    }

    /// Writes the record to its end. An error says why it could not all be written, or why standard input could not be
    /// read.
    pub fn finish(self) -> Result<(), Failure<'a>> {
        let Seat {
            scribe,
            meter,
            unread,
            ..
        } = self;
        meter.clear();
        let (host, file) = scribe.into_parts();
        file.finish(host)?;
        match unread {
            None => Ok(()),
            Some(failure) => Err(failure),
        }
    }

    // Ends the session where standard input can't be read, and keeps why, if the host says so.
    fn stop(&mut self) -> Given
        ensures { self.new.scribe ≡ self.old.scribe }
    {
        match self.scribe.why() {
            Why::Unknown => {}
            why => self.unread = Some(Failure::Input(why)),
        }
        Given::End
    }

    // Whether the keyboard is read where the machine does this.
    fn is_asked(&mut self, mood: Mood) -> bool
        ensures { self.new.scribe ≡ self.old.scribe }
    {
        match (self.is_terminal, mood) {
            (true, Mood::Busy) => self.scribe.is_due(),
            (true, _) | (false, Mood::Idle) => true,
            (false, _) => false,
        }
    }

    // Keeps bytes that were typed, that many of them.
    fn keep_typed(&mut self, bytes: &[u8], count: usize)
        ensures { self.new.scribe ≡ self.old.scribe }
    {
        for byte in bytes.iter().take(count) {
            let _ = self.typed.try_push(*byte);
        }
    }

    // Reads what is typed; whether it was anything.
    #[tactic(auto, using(crate::proofs::Recorded::written_as))]
    fn read(&mut self) -> Result<bool, Given>
        ensures { IsWrittenOut self.old.scribe self.new.scribe }
    {
        self.scribe.write_out();
        let mut bytes = [0; MOST_KEYS];
        match self.scribe.type_in(&mut bytes, self.is_terminal) {
            Ok(None) => Ok(false),
            Ok(Some(0)) => Err(Given::End),
            Err(_) => Err(self.stop()),
            Ok(Some(count)) => {
                self.keep_typed(&bytes, count);
                Ok(true)
            }
        }
    }
}

// What a byte is, after an escape or not: from a pipe or a file always a key.
fn meaning(is_terminal: bool, is_escaped: bool, byte: u8) -> Typed
    ensures piped { is_terminal ≡ false → result ≡ Key byte }
    ensures escaped { is_escaped ≡ true → byte ≢ 120 → result ≡ Key byte }
    ensures plain { is_escaped ≡ false → byte ≢ 1 → byte ≢ 16 → result ≡ Key byte }
{
    if !is_terminal {
        return Typed::Key(byte);
    }
    match (is_escaped, byte) {
        (true, LEAVE) => Typed::End,
        (true, _) => Typed::Key(byte),
        (false, ESCAPE) => Typed::Escape,
        (false, SHOW) => Typed::Show,
        (false, _) => Typed::Key(byte),
    }
}

impl<H: Host, S: Screen, E: Write> Seat<'_, '_, H, S, E> {
    // Takes the first byte that was typed, which is that key.
    fn take(&mut self)
        ensures { self.new.scribe ≡ self.old.scribe }
    {
        if !self.typed.is_empty() {
            self.typed.remove(0);
        }
        self.is_escaped = false;
    }

    // Changes the line that is edited, and shows it.
    fn edit(&mut self, key: u8)
        ensures { self.new.scribe ≡ self.old.scribe }
    {
        if let Some(editor) = &mut self.editor {
            let back = editor.column();
            if let Some(keys) = editor.take(key) {
                self.finished = keys;
            }
            self.meter.draw(&editor.drawing(back));
        }
    }

    // Gives keys of the line that is finished.
    fn give_finished(&mut self) -> Given
        ensures { self.new.scribe ≡ self.old.scribe }
    {
        let mut keys = ArrayVec::new();
        for _key in 0..MOST_KEYS {
            if self.finished.is_empty() {
                break;
            }
            let _ = keys.try_push(self.finished.remove(0));
        }
        Given::Keys(keys)
    }

    // What the bytes give that were read where lines are edited: the keys of a line that is finished, or what a byte
    // asks for that is no key.
    fn edit_typed(&mut self) -> Given
        ensures { self.new.scribe ≡ self.old.scribe }
    {
        for _key in 0..MOST_KEYS {
            if !self.finished.is_empty() {
                break;
            }
            let Some(byte) = self.typed.first().copied() else {
                break;
            };
            match meaning(self.is_terminal, self.is_escaped, byte) {
                Typed::Key(key) => {
                    self.take();
                    self.edit(key);
                }
                Typed::Escape => {
                    self.take();
                    self.is_escaped = true;
                }
                Typed::Show => {
                    self.take();
                    return Given::Show;
                }
                Typed::End => return Given::End,
            }
        }
        if self.finished.is_empty() {
            Given::Nothing
        } else {
            self.give_finished()
        }
    }

    // What the bytes give that were read.
    fn next_given(&mut self) -> Given
        ensures { self.new.scribe ≡ self.old.scribe }
    {
        if self.editor.is_some() {
            self.edit_typed()
        } else {
            self.next_keys()
        }
    }

    // The same where lines are not edited: keys up to the end of a line or to a byte that is none, or what that byte
    // asks for.
    fn next_keys(&mut self) -> Given
        ensures { self.new.scribe ≡ self.old.scribe }
    {
        let mut keys = ArrayVec::new();
        for _key in 0..MOST_KEYS {
            let Some(byte) = self.typed.first().copied() else {
                break;
            };
            match meaning(self.is_terminal, self.is_escaped, byte) {
                Typed::Key(key) => {
                    self.take();
                    let _ = keys.try_push(key);
                    if key == LINE_END {
                        break;
                    }
                }
                Typed::Escape => {
                    self.take();
                    self.is_escaped = true;
                }
                Typed::Show | Typed::End if !keys.is_empty() => break,
                Typed::Show => {
                    self.take();
                    return Given::Show;
                }
                Typed::End => return Given::End,
            }
        }
        if keys.is_empty() {
            Given::Nothing
        } else {
            Given::Keys(keys)
        }
    }
}

impl<H: Host, S: Screen, E: Write> Seat<'_, '_, H, S, E> {
    // What was typed, which is read where no key waits.
    #[tactic(auto, using(crate::proofs::Recorded::written_as, crate::proofs::Recorded::written_none))]
    fn given(&mut self) -> Given
        ensures { IsWrittenOut self.old.scribe self.new.scribe }
    {
        if !self.typed.is_empty() || !self.finished.is_empty() {
            return self.next_given();
        }
        match self.read() {
            Ok(true) => self.next_given(),
            Ok(false) => Given::Nothing,
            Err(end) => end,
        }
    }

    // What the keyboard gives, where it is asked.
    #[tactic(auto, using(crate::proofs::Recorded::written_as, crate::proofs::Recorded::written_none))]
    fn answer(&mut self, mood: Mood) -> Given
        ensures { IsWrittenOut self.old.scribe self.new.scribe }
    {
        if self.is_asked(mood) {
            self.given()
        } else {
            Given::Nothing
        }
    }
}

impl<H: Host, S: Screen, E: Write> Record for Seat<'_, '_, H, S, E> {
    ghost use Rattle.std.specs.Prelude.{List, Option, ℕ};

    ghost kept = { λ seat. seat.scribe.kept };

    ghost Rest = { Option (List ℕ) × ℕ };

    ghost rest = { λ seat. (seat.scribe.name, seat.scribe.host) };

    fn steps(&mut self, count: u32) {
        self.meter.count(count);
        self.scribe.steps(count);
    }

    fn ticks(&mut self, count: u32) {
        self.scribe.ticks(count);
    }

    fn keys(&mut self, keys: &[u8]) {
        self.scribe.keys(keys);
    }
}

impl<H: Host, S: Screen, E: Write> Terminal for Seat<'_, '_, H, S, E> {
    ghost gives = { λ seat. None };

    ghost is_beside = { λ a b same. refl };

    fn ask(&mut self, mood: Mood) -> Given {
        self.scribe.end_line();
        match mood {
            Mood::Busy => self.meter.show(0),
            Mood::Asleep | Mood::Idle => self.meter.pause(),
        }
        self.answer(mood)
    }

    fn show<D: BlockDev, T: Translate>(&mut self, machine: &Machine<D, T>) {
        self.meter.clear();
        let _ = writeln!(self.stderr);
        let mut pid = 0;
        for _shown in 0..PROCESSES {
            let Some(next) = machine.next_pid(pid) else {
                break;
            };
            if let Some(seen) = machine.inspect(next) {
                let _ = write!(self.stderr, "{}", Line(seen));
            }
            pid = next;
        }
        let _ = self.stderr.flush();
    }
}
