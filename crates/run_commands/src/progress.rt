//! The line on a terminal that shows how far a long run is.
ghost use Rattle.std.specs.Prelude.{◌≡◌, is_some};

use blockdev::BlockDev;
use driver::{Detail, Watch};
use host::Screen;
use machine::{Halt, Machine};
use std::alloc::Global;
use std::cell::Cell;
use std::io::Write;
use std::{fmt, io};
use sv39::Translate;
use unixmodel::event::Event;

/// How many milliseconds a run takes before a line is shown.
const FIRST: u64 = 1000;

/// How many milliseconds there are at least between two lines.
const REST: u64 = 250;

/// How many columns the line takes.
const WIDTH: usize = 43;

/// The last column at which a line is shown: further right it might not fit.
const LAST_COLUMN: usize = 80 - WIDTH;

/// As many blanks, and as many steps back.
const BLANKS: &str = "                                           ";

const BACK: &str =
    "\x08\x08\x08\x08\x08\x08\x08\x08\x08\x08\x08\x08\x08\x08\x08\x08\x08\x08\x08\x08\x08\x08\x08\x08\x08\x08\x08\x08\x08\x08\x08\x08\x08\x08\x08\x08\x08\x08\x08\x08\x08\x08\x08";

// The line, after which the cursor is where it was.
#[derive(Clone, Copy)]
struct Line {
    steps: u64,
    rate: u64,
}

impl fmt::Display for Line {
    fn fmt<W: fmt::Write>(&self, f: &mut fmt::Formatter<W>) -> fmt::Result {
        let (steps, rate) = (self.steps, self.rate);
        write!(f, " {steps:>13} steps, {rate:>11} a second {BACK}")
    }
}

// How far a run is, and what a terminal shows of it.
#[derive(Clone, Copy)]
struct State {
    // How many steps are done, and how many were when a line was last shown, or at the start.
    steps: u64,
    told: u64,
    // When that was, and when the next line is due, in milliseconds.
    told_at: u64,
    due_at: u64,
    is_shown: bool,
    // How many columns the console's last line takes at most.
    column: usize,
}

impl State {
    // The line at this time, with the steps a second since the last one.
    fn line(&self, now: u64) -> Line {
        let lasted = now.saturating_sub(self.told_at).max(1);
        let done = self.steps.saturating_sub(self.told);
        Line {
            steps: self.steps,
            rate: done.saturating_mul(1000) / lasted,
        }
    }

    // Counts from this time on: the next line is due `rest` milliseconds later.
    fn rest(&mut self, now: u64, rest: u64) {
        self.told = self.steps;
        self.told_at = now;
        self.due_at = now.saturating_add(rest);
    }
}

/// Shows how far a run is, if there is a terminal.
#[derive(Drop)]
pub struct Meter<S> {
    screen: Option<S>,
    state: Cell<State>,
}

impl<S: Screen> Meter<S> {
    /// A run that begins.
    pub fn new(screen: Option<S>) -> Self
        ensures { result.screen ≡ screen }
    {
        let mut state = State {
            steps: 0,
            told: 0,
            told_at: 0,
            due_at: 0,
            is_shown: false,
            column: 0,
        };
        if let Some(screen) = &screen {
            state.rest(screen.milliseconds(), FIRST);
        }
        Meter {
            screen,
            state: Cell::new(state),
        }
    }

    /// Counts steps.
    pub(crate) fn count(&self, steps: u32) {
        let mut state = self.state.get();
        state.steps = state.steps.saturating_add(u64::from(steps));
        self.state.set(state);
    }

    /// Shows how far the run is, where that is due; `more` steps are done besides those that were counted.
    pub(crate) fn show(&self, more: u32) {
        let Some(screen) = &self.screen else {
            return;
        };
        let mut state = self.state.get();
        let now = screen.milliseconds();
        if now < state.due_at || state.column > LAST_COLUMN {
            return;
        }
        let counted = state.steps;
        state.steps = counted.saturating_add(u64::from(more));
        screen.show(&state.line(now));
        state.rest(now, REST);
        state.steps = counted;
        state.is_shown = true;
        self.state.set(state);
    }

    /// Takes the line away, if one is shown.
    pub fn clear(&self) {
        let mut state = self.state.get();
        if let Some(screen) = &self.screen
            && state.is_shown
        {
            screen.show(&Blank);
            state.is_shown = false;
            self.state.set(state);
        }
    }

    /// Whether there is a terminal.
    pub(crate) fn has_screen(&self) -> bool
        ensures { result ≡ is_some self.now.screen }
    {
        self.screen.is_some()
    }

    /// Takes the line away, and ends the console's last line on the terminal, if it is not empty.
    pub(crate) fn begin_line(&self) {
        self.clear();
        let mut state = self.state.get();
        if let Some(screen) = &self.screen
            && state.column > 0
        {
            screen.show(&"\n");
            state.column = 0;
            self.state.set(state);
        }
    }

    /// Shows a text on the terminal, if there is one, in place of the line.
    pub(crate) fn draw<T: fmt::Display>(&self, text: &T) {
        self.clear();
        if let Some(screen) = &self.screen {
            screen.show(text);
        }
    }

    // Writes bytes on the terminal, if there is one.
    fn print(&self, bytes: &[u8]) {
        if let Some(screen) = &self.screen
            && let Ok(text) = str::from_utf8(bytes)
        {
            screen.show(&text);
        }
    }

    /// Takes the line away; the next one is due later, as of a run that begins.
    pub(crate) fn pause(&self) {
        self.clear();
        if let Some(screen) = &self.screen {
            let mut state = self.state.get();
            state.rest(screen.milliseconds(), FIRST);
            self.state.set(state);
        }
    }

    // The console writes these bytes.
    fn writes(&self, bytes: &[u8]) {
        let Some(screen) = &self.screen else {
            return;
        };
        self.clear();
        if screen.has_console() {
            let mut state = self.state.get();
            for byte in bytes {
                state.column = if *byte == b'\n' {
                    0
                } else {
                    state.column.saturating_add(1)
                };
            }
            self.state.set(state);
        }
    }
}

// Blanks in place of the line.
#[derive(Clone, Copy)]
struct Blank;

impl fmt::Display for Blank {
    fn fmt<W: fmt::Write>(&self, f: &mut fmt::Formatter<W>) -> fmt::Result {
        f.write_str(BLANKS)?;
        f.write_str(BACK)
    }
}

/// What a command is done with besides its files: where its memory comes from, and what shows how far it is.
#[derive(Clone, Copy)]
pub struct Setting<'m, S> {
    pub alloc: Global,
    pub meter: &'m Meter<S>,
}

/// Watches a run, and has its meter show how far it is.
#[derive(Clone, Copy)]
pub struct Gauge<'a, S> {
    pub meter: &'a Meter<S>,
}

impl<S: Screen> Watch for Gauge<'_, S> {
    #[inline]
    fn detail(&self) -> Detail {
        Detail::Nothing
    }

    #[inline]
    fn before<D: BlockDev, T: Translate>(&mut self, _machine: &Machine<D, T>, _event: Event) {}

    #[inline]
    fn after<D: BlockDev, T: Translate>(
        &mut self,
        _machine: &Machine<D, T>,
        _event: Event,
        _ended: Result<(), Halt>,
    ) {}

    #[inline]
    fn passed<D: BlockDev, T: Translate>(&mut self, _machine: &Machine<D, T>, _steps: u32) {}

    fn written_out(&mut self, event: Event, made: u32) {
        let more = if event == Event::Step { made } else { 0 };
        self.meter.show(more);
    }

    fn repeated(&mut self, event: Event, times: u32) {
        if event == Event::Step {
            self.meter.count(times);
        }
    }

    fn end<D: BlockDev, T: Translate>(&mut self, _machine: &Machine<D, T>) {
        self.meter.clear();
    }
}

/// The terminal, if there is one, for lines beside the console's bytes. What it doesn't take is lost.
#[derive(Clone, Copy)]
pub(crate) struct Aside<'a, S> {
    pub meter: &'a Meter<S>,
}

impl<S: Screen> Write for Aside<'_, S> {
    fn write(&mut self, buf: &[u8]) -> io::Result<usize> {
        self.meter.print(buf);
        Ok(buf.len())
    }

    fn flush(&mut self) -> io::Result<()> {
        Ok(())
    }
}

/// Standard output, before whose bytes the line is taken away.
#[derive(Drop)]
pub struct Cleared<'a, 'b, W, S> {
    out: &'a mut W,
    meter: &'b Meter<S>,
    // Whether bytes are written out at once, so that what is printed beside them comes after them.
    is_prompt: bool,
}

impl<'a, 'b, W: Write, S: Screen> Cleared<'a, 'b, W, S> {
    /// The output over another one; `is_prompt` says whether bytes are written out at once.
    pub fn new(out: &'a mut W, meter: &'b Meter<S>, is_prompt: bool) -> Self
        ensures out { result.out.now ≡ out.old }
        ensures same_out { result.out.ghost_name ≡ out.entry.ghost_name }
        ensures meter { result.meter ≡ meter.entry }
        ensures prompt { result.is_prompt ≡ is_prompt }
    {
        Cleared {
            out,
            meter,
            is_prompt,
        }
    }
}

impl<W: Write, S: Screen> Write for Cleared<'_, '_, W, S> {
    fn write(&mut self, buf: &[u8]) -> io::Result<usize> {
        self.meter.writes(buf);
        let count = self.out.write(buf)?;
        if self.is_prompt {
            // Where that fails, it fails again at the last flush, which is reported.
            let _ = self.out.flush();
        }
        Ok(count)
    }

    fn flush(&mut self) -> io::Result<()> {
        self.out.flush()
    }
}
