//! Watchers of a machine that is given events.

use blockdev::BlockDev;
use machine::{Halt, Machine};
use sv39::Translate;
use unixmodel::event::Event;

/// Which steps a watcher wants to see, from the fewest to all. It sees ticks and keys in any case.
#[derive(Clone, Copy, PartialEq, Eq, PartialOrd, Ord, Debug)]
pub enum Detail {
    /// None of them.
    Nothing,
    /// Those at which a process calls or faults, and turns: what is more than an instruction that is done.
    Calls,
    /// Each of them, except while no process runs and none is ready.
    Steps,
}

/// Looks at a machine before and after its events. It can't change what they do.
pub trait Watch {
    /// Which steps it wants to see. It may be shown others.
    fn detail(&self) -> Detail;

    /// The machine is about to be given this event.
    fn before<D: BlockDev, T: Translate>(&mut self, machine: &Machine<D, T>, event: Event);

    /// The machine was given this event. `ended` is what it returned.
    fn after<D: BlockDev, T: Translate>(
        &mut self,
        machine: &Machine<D, T>,
        event: Event,
        ended: Result<(), Halt>,
    );

    /// The machine was given that many steps, without `before` and `after`: the process that runs did that many
    /// instructions, none of which called or faulted; or no process runs and none is ready, and they changed nothing.
    /// Where it wants to see no step, this may be left out.
    fn passed<D: BlockDev, T: Translate>(&mut self, machine: &Machine<D, T>, steps: u32);

    /// The console's bytes were written out, before this event that comes again and again, and came that many times so
    /// far.
    #[inline]
    fn written_out(&mut self, _event: Event, _made: u32) {}

    /// This event came that many times, one after the other, and no more.
    #[inline]
    fn repeated(&mut self, _event: Event, _times: u32) {}

    /// No more events come.
    fn end<D: BlockDev, T: Translate>(&mut self, machine: &Machine<D, T>);
}

/// Looks at nothing.
#[derive(Clone, Copy)]
pub struct Nobody;

impl Watch for Nobody {
    #[inline]
    fn detail(&self) -> Detail {
        Detail::Nothing
    }

    #[inline]
    fn before<D: BlockDev, T: Translate>(&mut self, _machine: &Machine<D, T>, _event: Event) {}

    #[inline]
    fn after<D: BlockDev, T: Translate>(
        &mut self,
        _machine: &Machine<D, T>,
        _event: Event,
        _ended: Result<(), Halt>,
    ) {}

    #[inline]
    fn passed<D: BlockDev, T: Translate>(&mut self, _machine: &Machine<D, T>, _steps: u32) {}

    #[inline]
    fn end<D: BlockDev, T: Translate>(&mut self, _machine: &Machine<D, T>) {}
}
