//! Lists of events: pieces, each of some steps and an interrupt, and more steps.
ghost use Rattle.std.specs.Prelude.{◌≡◌, ◌+◌, ◌++◌, ◌∷◌, [], if◌then◌else◌, IfOk};
ghost use Rattle.orders.specs.Paths.{event_of, events_of, is_key, steps, typed_in};
ghost use Rattle.unixmodel.specs.declared.event.Event.TheVariants.{Key, Tick};

use crate::bounds::Trouble;
use std::alloc::Global;
use unixmodel::event::Event;

/// What comes after some steps.
#[derive(Clone, Copy, PartialEq, Eq, Debug)]
pub enum Interrupt {
    Tick,
    Key(u8),
}

impl Interrupt {
    /// The event.
    pub fn event(self) -> Event
        ensures { result ≡ event_of self }
    {
        match self {
            Interrupt::Tick => Event::Tick,
            Interrupt::Key(byte) => Event::Key(byte),
        }
    }

    // Whether it is a typed byte.
    fn is_key(self) -> bool
        ensures { result ≡ is_key self }
    {
        match self {
            Interrupt::Tick => false,
            Interrupt::Key(_) => true,
        }
    }
}

/// Some steps, and an interrupt.
#[derive(Clone, Copy, PartialEq, Eq, Debug)]
pub struct Piece {
    pub steps: u32,
    pub interrupt: Interrupt,
}

/// Events from the beginning on: pieces, and more steps.
#[derive(Drop)]
pub struct Path {
    pub pieces: Vec<Piece>,
    pub steps: u32,
    /// How many timer interrupts come while a process runs.
    pub busy: u32,
    alloc: Global,
}

impl Path {
    /// No events.
    pub fn new(alloc: Global) -> Path
        ensures events { events_of result ≡ [] }
        ensures busy { result.busy ≡ 0 }
    {
        Path {
            pieces: Vec::new(alloc),
            steps: 0,
            busy: 0,
            alloc,
        }
    }

    /// The same events.
    pub fn copy(&self) -> Result<Path, Trouble>
        ensures events { IfOk result (λ path. events_of path ≡ events_of self.now) }
        ensures busy { IfOk result (λ path. path.busy ≡ self.now.busy) }
    {
        Ok(Path {
            pieces: Vec::from_slice(self.alloc, self.pieces.as_slice())?,
            steps: self.steps,
            busy: self.busy,
            alloc: self.alloc,
        })
    }

    /// Some steps more.
    #[tactic(auto, using(crate::proofs::Events::stepped))]
    pub fn stepped(self, count: u32) -> Result<Path, Trouble>
        ensures events { IfOk result (λ path. events_of path ≡ events_of self ++ steps count) }
        ensures busy { IfOk result (λ path. path.busy ≡ self.busy) }
    {
        let Some(steps) = self.steps.checked_add(count) else {
            return Err(Trouble::TooLong);
        };
        Ok(Path { steps, ..self })
    }

    /// One more event, an interrupt.
    #[tactic(auto, using(crate::proofs::Events::interrupted))]
    fn interrupted(&self, interrupt: Interrupt, busy: u32) -> Result<Path, Trouble>
        ensures events { IfOk result (λ path. events_of path ≡ events_of self.now ++ event_of interrupt ∷ []) }
        ensures busy { IfOk result (λ path. path.busy ≡ busy) }
    {
        let mut pieces = Vec::from_slice(self.alloc, self.pieces.as_slice())?;
        pieces.push(Piece {
            steps: self.steps,
            interrupt,
        })?;
        Ok(Path {
            pieces,
            steps: 0,
            busy,
            alloc: self.alloc,
        })
    }

    /// One more typed byte.
    pub fn typing(&self, byte: u8) -> Result<Path, Trouble>
        ensures events { IfOk result (λ path. events_of path ≡ events_of self.now ++ Key byte ∷ []) }
        ensures busy { IfOk result (λ path. path.busy ≡ self.now.busy) }
    {
        self.interrupted(Interrupt::Key(byte), self.busy)
    }

    /// One more timer interrupt, which comes while a process runs, or none.
    pub fn ticked(&self, is_running: bool) -> Result<Path, Trouble>
        ensures events { IfOk result (λ path. events_of path ≡ events_of self.now ++ Tick ∷ []) }
        ensures busy { IfOk result (λ path. path.busy ≡ self.now.busy + (if is_running then 1 else 0)) }
    {
        let Some(busy) = self.busy.checked_add(u32::from(is_running)) else {
            return Err(Trouble::TooLong);
        };
        self.interrupted(Interrupt::Tick, busy)
    }

    /// How many bytes are typed.
    pub fn typed(&self) -> usize
        ensures { result ≡ typed_in self.now.pieces.items }
    {
        self.pieces
            .iter()
            .filter(|piece| piece.interrupt.is_key())
            .count()
    }
}
