//! A play as a source.
ghost use Rattle.std.specs.Prelude.{IfOk, None, Some, ◌*◌, ◌+◌, ◌≡◌, option_map};
ghost use Rattle.driver.specs.Plays.{PlaysOn, aim_of, gave, in_vain, is_open, line_keys_of, noted_if};
ghost use Rattle.driver.specs.Plays.{wanted_by};
ghost use Rattle.events.specs.Places.{first_place};

use crate::script::{keys_of, wanted_of};
use crate::source::Source;
use crate::wanted::{Walked, Wanted};
use blockdev::BlockDev;
use events::{Act, Command, Deed, Goal, Place};
use machine::Machine;
use sv39::Translate;

/// What was waited for did not come.
#[derive(Clone, Copy)]
pub struct Unreached {
    /// The number of the line that waits, from 1 on.
    pub line: usize,
    /// How many steps it waited: those that it may, or fewer where nobody is ready and no clock runs.
    pub steps: u32,
}

/// The lines of a play, one after the other. After each the console's bytes are written out.
#[derive(Drop)]
pub struct Lines<'b, 'a> {
    acts: &'b [Act<'a>],
    place: Place,
    // The line whose events are wanted.
    current: Option<&'b Act<'a>>,
    // How many lines may still come.
    left: u64,
    /// What was waited for in vain, if anything was.
    pub unreached: Option<Unreached>,
}

// What a line wants.
fn wanted_by(deed: &Deed<'_>) -> Wanted
    ensures { result ≡ wanted_by deed.now }
{
    match deed {
        Deed::Give(command) => wanted_of(command),
        Deed::Until(_, most) => Wanted::Steps(*most),
        Deed::Set(clock) => Wanted::Set(*clock),
        Deed::Repeat { .. } | Deed::End => Wanted::Nothing,
    }
}

// Whether a line gave an event, where this came of its steps.
fn gave(deed: &Deed<'_>, walked: Walked) -> bool
    ensures { result ≡ gave deed.now walked }
{
    match deed {
        Deed::Give(Command::Step(times) | Command::Tick(times)) => *times > 0,
        Deed::Give(Command::Keys(keys)) => !keys.is_empty(),
        Deed::Give(Command::Type(_)) => true,
        Deed::Until(_, _) => walked.made > 0,
        Deed::Set(_) | Deed::Repeat { .. } | Deed::End => false,
    }
}

// Notes an event, where a line gave one.
fn note_if(place: &mut Place, gave: bool)
    ensures { place.new ≡ noted_if gave place.old }
{
    if gave {
        place.note_event();
    }
}

// What a line waited for in vain, where this came of its steps.
fn in_vain(act: &Act<'_>, walked: Walked) -> Option<Unreached>
    ensures { result ≡ in_vain act.now walked }
{
    match act.deed {
        Deed::Until(_, _) if !walked.is_there => Some(Unreached {
            line: act.line,
            steps: walked.made,
        }),
        _ => None,
    }
}

// What a line waits for, if for anything.
fn aim_of<'b>(act: Option<&'b Act<'_>>) -> Option<&'b Goal>
    ensures { option_map (λ g. g.now) result ≡ aim_of (option_map (λ a. a.now) act.entry) }
{
    match act {
        Some(act) => match &act.deed {
            Deed::Until(goal, _) => Some(goal),
            _ => None,
        },
        None => None,
    }
}

// The keys of a line.
fn line_keys_of<'b>(act: Option<&'b Act<'_>>) -> &'b [u8]
    ensures { result.now ≡ line_keys_of (option_map (λ a. a.now) act.entry) }
{
    match act {
        Some(act) => match &act.deed {
            Deed::Give(command) => keys_of(Some(command)),
            _ => &[],
        },
        None => &[],
    }
}

impl<'b, 'a> Lines<'b, 'a> {
    /// All lines of a play, up to 2^64 - 1 of them.
    pub fn new(acts: &'b [Act<'a>]) -> Self
        ensures acts { result.acts.now ≡ acts.now }
        ensures place { result.place ≡ first_place }
        ensures current { result.current ≡ None }
        ensures left { result.left ≡ 0xffff_ffff_ffff_ffff }
    {
        Lines {
            acts,
            place: Place::new(),
            current: None,
            left: u64::MAX,
            unreached: None,
        }
    }
}

impl Source for Lines<'_, '_> {
    ghost left = { λ s. 2 * s.left + is_open (option_map (λ a. a.now) s.current) };

    ghost goal = { λ s. aim_of (option_map (λ a. a.now) s.current) };

    ghost typed = { λ s. line_keys_of (option_map (λ a. a.now) s.current) };

    ghost wants = { λ s walked spot last.
        PlaysOn s.left s.acts.now s.place (option_map (λ a. a.now) s.current) walked spot last.unreached };

    fn next<D: BlockDev, T: Translate>(
        &mut self,
        _machine: &Machine<D, T>,
        walked: Walked,
    ) -> Wanted {
        self.unreached = None;
        if let Some(act) = self.current {
            self.current = None;
            self.unreached = in_vain(act, walked);
            if self.unreached.is_some() {
                return Wanted::End;
            }
            note_if(&mut self.place, gave(&act.deed, walked));
            return Wanted::WriteOut;
        }
        let is_spent = self.left == 0;
        if is_spent {
            return Wanted::End;
        }
        let Some(act) = self.place.next_act(self.acts) else {
            return Wanted::End;
        };
        self.left -= 1;
        self.current = Some(act);
        wanted_by(&act.deed)
    }

    fn aim(&self) -> Option<&Goal> {
        aim_of(self.current)
    }

    fn keys(&self) -> &[u8] {
        line_keys_of(self.current)
    }
}
