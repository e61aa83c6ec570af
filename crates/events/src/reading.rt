//! Reads a play, line by line.
ghost use Rattle.std.specs.Prelude.{◌≡◌, ◌∷◌, IfOk, List, MatchOption, OnOk, codes, map, ℕ};
ghost use Rattle.events.specs.PlayTexts.{Adds, AreActs, IsDeed, IsGoal, IsPlayOf, Reads, SaysCommand, SaysDeed, bare};
ghost use Rattle.events.specs.Words.{HasNone};

use crate::clock::Clock;
use crate::fault::{Fault, PlayFault, Why};
use crate::grammar::{Act, Deed, Goal, MOST_DEPTH, Play};
use crate::lines::split_lines;
use crate::script::{Command, bytes_of};
use crate::words::{Words, shown};
use arrayvec::ArrayVec;
use std::alloc::Global;

// The keys that a word writes.
fn keys<'a>(alloc: Global, name: &'a [u8], words: &mut Words<'a>) -> Result<Command<'a>, Fault<'a>>
    ensures { IfOk result (λ given. Reads words.old words.new (λ more. SaysCommand (codes "keys" ∷ more) given)) }
{
    let word = words.want(name)?;
    match bytes_of(alloc, word)? {
        Some(keys) => Ok(Command::Keys(keys)),
        None => Err(Fault::at(word, Why::Keys)),
    }
}

// What is waited for.
fn goal<'a>(word: &'a [u8]) -> Result<Goal, Fault<'a>>
    ensures { IfOk result (IsGoal word.now) }
{
    match word {
        b"idle" => Ok(Goal::Idle),
        b"prompt" => Ok(Goal::Prompt),
        b"quiet" => Ok(Goal::Quiet),
        b"halt" => Ok(Goal::Halt),
        [b'"', ..] => Ok(Goal::Shown(shown(word)?)),
        _ => Err(Fault::at(word, Why::Goal)),
    }
}

// What is waited for, and how long.
fn until<'a>(name: &'a [u8], words: &mut Words<'a>) -> Result<Deed<'a>, Fault<'a>>
    ensures { IfOk result (λ deed. Reads words.old words.new (λ more. SaysDeed (codes "until" ∷ more) deed)) }
{
    let word = words.want(name)?;
    let goal = goal(word)?;
    Ok(Deed::Until(goal, words.number(word)?))
}

// A clock that strikes again and again.
fn every<'a>(name: &'a [u8], words: &mut Words<'a>) -> Result<Deed<'a>, Fault<'a>>
    ensures { IfOk result (λ deed. Reads words.old words.new (λ more. SaysDeed (codes "every" ∷ more) deed)) }
{
    let steps = words.number(name)?;
    words.exactly(name, "tick")?;
    Ok(Deed::Set(Clock::every(steps)))
}

// A clock that strikes at random.
fn random<'a>(name: &'a [u8], words: &mut Words<'a>) -> Result<Deed<'a>, Fault<'a>>
    ensures { IfOk result (λ deed. Reads words.old words.new (λ more. SaysDeed (codes "random" ∷ more) deed)) }
{
    let seed = words.number(name)?;
    let steps = words.number(name)?;
    words.exactly(name, "tick")?;
    Ok(Deed::Set(Clock::random(seed, steps)))
}

// The beginning of what is repeated. Its end isn't known yet.
fn repeat<'a>(name: &'a [u8], words: &mut Words<'a>) -> Result<Deed<'a>, Fault<'a>>
    ensures { IfOk result (λ deed. Reads words.old words.new (λ more. SaysDeed (codes "repeat" ∷ more) deed)) }
{
    let times = words.number(name)?;
    words.exactly(name, "{")?;
    Ok(Deed::Repeat { times, end: 0 })
}

// The command of a script on a line with this first word.
fn command<'a>(
    alloc: Global,
    name: &'a [u8],
    words: &mut Words<'a>,
) -> Result<Command<'a>, Fault<'a>>
    ensures { IfOk result (λ given. Reads words.old words.new (λ more. SaysCommand (name.now ∷ more) given)) }
{
    match name {
        b"step" => Ok(Command::Step(words.number(name)?)),
        b"tick" => Ok(Command::Tick(words.number(name)?)),
        b"keys" => keys(alloc, name, words),
        _ => Err(Fault::at(name, Why::Command)),
    }
}

// What a line with this first word says.
fn deed<'a>(alloc: Global, name: &'a [u8], words: &mut Words<'a>) -> Result<Deed<'a>, Fault<'a>>
    ensures { IfOk result (λ deed. Reads words.old words.new (λ more. SaysDeed (name.now ∷ more) deed)) }
{
    match name {
        b"until" => until(name, words),
        b"every" => every(name, words),
        b"random" => random(name, words),
        b"repeat" => repeat(name, words),
        b"}" => Ok(Deed::End),
        _ => Ok(Deed::Give(command(alloc, name, words)?)),
    }
}

// What a line says, if it says anything.
fn deed_of<'a>(alloc: Global, line: &'a [u8]) -> Result<Option<(&'a [u8], Deed<'a>)>, Fault<'a>>
    ensures { IfOk result (λ found. MatchOption found (HasNone line.now) (λ two. IsDeed line.now two.1)) }
{
    let mut words = Words::new(line);
    let Some(name) = words.next_word() else {
        return Ok(None);
    };
    if name == b"type".as_slice() {
        let typed = Deed::Give(Command::Type(words.text()));
        return Ok(Some((name, typed)));
    }
    let deed = deed(alloc, name, &mut words)?;
    words.end()?;
    Ok(Some((name, deed)))
}

// A play that is being read.
#[derive(Drop)]
struct Draft<'a> {
    acts: Vec<Act<'a>>,
    // Where the repeats begin that have no end yet.
    open: ArrayVec<usize, MOST_DEPTH>,
}

// Notes where the repeat of an act ends.
fn end_at(act: &mut Act<'_>, next: usize)
    ensures { bare act.new ≡ bare act.old }
{
    if let Deed::Repeat { end, .. } = &mut act.deed {
        *end = next;
    }
}

impl<'a> Draft<'a> {
    // A repeat begins here.
    fn open(&mut self, name: &'a [u8]) -> Result<(), Fault<'a>>
        ensures { self.new.acts ≡ self.old.acts }
    {
        match self.open.try_push(self.acts.len()) {
            Ok(()) => Ok(()),
            Err(_) => Err(Fault::at(name, Why::Depth)),
        }
    }

    // The innermost repeat ends here.
    fn close(&mut self, name: &'a [u8]) -> Result<(), Fault<'a>>
        ensures { map bare self.new.acts.items ≡ map bare self.old.acts.items }
    {
        let Some(at) = self.open.pop() else {
            return Err(Fault::at(name, Why::NoRepeat));
        };
        let next = self.acts.len().saturating_add(1);
        if let Some(act) = self.acts.get_mut(at) {
            end_at(act, next);
        }
        Ok(())
    }

    // Reads a line.
    fn read(&mut self, alloc: Global, line: usize, bytes: &'a [u8]) -> Result<(), Fault<'a>>
        ensures { OnOk result (Adds line bytes.now self.old.acts.items self.new.acts.items) }
    {
        let Some((name, deed)) = deed_of(alloc, bytes)? else {
            return Ok(());
        };
        let fits = match deed {
            Deed::Repeat { .. } => self.open(name),
            Deed::End => self.close(name),
            _ => Ok(()),
        };
        fits?;
        self.acts.push(Act { line, deed })?;
        Ok(())
    }

    // The play, which has been read to its end.
    fn finish(self) -> Result<Play<'a>, PlayFault<'a>>
        ensures { IfOk result (λ play. play.acts ≡ self.entry.acts) }
    {
        let Draft { acts, open } = self;
        if let Some(at) = open.last()
            && let Some(act) = acts.get(*at)
        {
            return Err(PlayFault {
                line: act.line,
                word: b"repeat",
                why: Why::Unended,
            });
        }
        Ok(Play { acts })
    }
}

// The lines of a play, of which all repeats may not have ended.
fn read_lines<'a>(alloc: Global, lines: &[&'a [u8]]) -> Result<Draft<'a>, PlayFault<'a>>
    ensures { IfOk result (λ draft. AreActs 1 (map (λ line. line.now) lines.now) (map bare draft.acts.items)) }
{
    let mut draft = Draft {
        acts: Vec::new(alloc),
        open: ArrayVec::new(),
    };
    for (index, bytes) in lines.iter().enumerate() {
        let line = index + 1;
        if let Err(Fault { word, why }) = draft.read(alloc, line, bytes) {
            return Err(PlayFault { line, word, why });
        }
    }
    Ok(draft)
}

/// The play that a text says. Lines end at LF, blanks may come before the first word, and a word that begins with `#`
/// begins a comment. A fault is that of the first line that can't be read.
pub fn parse_play<'a>(alloc: Global, text: &'a [u8]) -> Result<Play<'a>, PlayFault<'a>>
    ensures { IfOk result (λ play. IsPlayOf text.now play.acts.items) }
{
    let Ok(lines) = split_lines(alloc, text) else {
        return Err(PlayFault {
            line: 1,
            word: b"",
            why: Why::NoMemory,
        });
    };
    read_lines(alloc, lines.as_slice())?.finish()
}
