//! What the words of a command line ask for.
ghost use Rattle.std.specs.Prelude.{◌≡◌, ◌↔◌, IfOk, IfSome, IsTrue, Some, codes, false, fold, map, option_map};
ghost use Rattle.std.specs.Prelude.{slice_get};
ghost use Rattle.clap.specs.Words.{app_of, first_of, found_of, rows_of, rule_of, subcommand_of, subcommand_rows_of};
ghost use Rattle.commandline.specs.Asking.{asks, asks_more};
ghost use Rattle.commandline.specs.Declarations.{AreFirst, DeclaresOwn, IsAmount, IsCount, IsGdb, IsJob, IsLines};
ghost use Rattle.commandline.specs.Declarations.{IsPart, IsReach, IsRun, IsSigned, IsTelling, IsWritten, Writes};
ghost use Rattle.commandline.specs.Declarations.{declared, declared_by, declared_top, flag_rule, last_rule, named_rule};
ghost use Rattle.commandline.specs.Declarations.{option_rule, rule_given, with_declared};

use crate::declarations::{COMMANDS, Declared, EXAMPLE, Given, Word};
use crate::jobs::{
    As, Asm, Check, Dump, Explore, Files, Flat, Gdb, Get, Job, Lines, Live, Ls, Migrate, Mkfs,
    Part, Play, Put, Reach, Run, Telling, Trace,
};
use clap::error::ErrorKind;
use clap::{Arg, ArgAction, ArgMatches, Command, Error, value_parser};
use std::alloc::{AllocError, Global};
use std::num::NonZeroU64;

/// What `--version` prints after the name; the change log says what each version brought.
const VERSION: &str = "1.0.0";

// A positional argument.
fn placed<'a>(alloc: Global, word: &Word<'a>) -> Arg<'a>
    ensures rule { rule_of result ≡ last_rule word.now.name.now }
    ensures local { result.global ≡ false }
{
    Arg::new(alloc, word.name).help(word.help)
}

// An argument that is given by its name.
fn named<'a>(alloc: Global, word: &Word<'a>) -> Arg<'a>
    ensures rule { rule_of result ≡ named_rule word.now.name.now }
    ensures local { result.global ≡ false }
{
    placed(alloc, word).long(word.name)
}

// An option; help calls its value so.
fn option<'a>(alloc: Global, word: &Word<'a>, value: &'a str) -> Arg<'a>
    ensures rule { rule_of result ≡ option_rule word.now.name.now }
    ensures local { result.global ≡ false }
{
    named(alloc, word).value_name(value)
}

// A flag.
fn flag<'a>(alloc: Global, word: &Word<'a>) -> Arg<'a>
    ensures rule { rule_of result ≡ flag_rule word.now.name.now }
    ensures local { result.global ≡ false }
{
    named(alloc, word).action(ArgAction::SetTrue)
}

// What the command line takes for a word.
fn arg<'a>(alloc: Global, word: &Word<'a>) -> Arg<'a>
    ensures rule { rule_of result ≡ rule_given word.now.name.now word.now.given }
    ensures local { result.global ≡ false }
{
    match word.given {
        Given::Bare => placed(alloc, word).required(true),
        Given::Last => placed(alloc, word),
        Given::Number(default) => option(alloc, word, "N")
            .value_parser(value_parser!(u32))
            .default_value(default),
        Given::Count(value) => {
            option(alloc, word, value).value_parser(value_parser!(u32).range(1..))
        }
        Given::Several(value) => {
            option(alloc, word, value).value_parser(value_parser!(u32).range(2..))
        }
        Given::Amount(value) => option(alloc, word, value).value_parser(value_parser!(u32)),
        Given::Signed(value) => option(alloc, word, value).value_parser(value_parser!(i32)),
        Given::Option(value) => option(alloc, word, value),
        Given::Short(letter) => option(alloc, word, "OUT").short(letter),
        Given::Each => placed(alloc, word).required(true).num_args(1..=8),
        Given::Flag => flag(alloc, word),
        Given::Letter(letter) => flag(alloc, word).short(letter),
    }
}

// The command of a row.
fn command_of<'a>(alloc: Global, row: &Declared<'a>) -> Result<Command<'a>, AllocError>
    ensures { IfOk result (DeclaresOwn (declared_by row.now)) }
{
    let mut command = Command::new(alloc, row.name)
        .about(row.about)
        .after_help(row.example);
    for word in row.words {
        command = command.arg(arg(alloc, word))?;
    }
    Ok(command)
}

// The command line without its commands, of which one has to be there.
fn bare_command<'a>(alloc: Global) -> Command<'a>
    ensures { app_of result ≡ declared_top }
{
    let about = "A RISC-V Unix in the manner of xv6, as a machine that is proved correct";
    Command::new(alloc, "xv6")
        .about(about)
        .version(VERSION)
        .after_help(EXAMPLE)
        .subcommand_required(true)
        .arg_required_else_help(true)
}

// The command line with the commands of these rows.
fn with_commands<'a>(alloc: Global, rows: &[Declared<'a>]) -> Result<Command<'a>, AllocError>
    ensures { IfOk result (λ new. app_of new ≡ fold with_declared declared_top rows.now) }
{
    let mut command = bare_command(alloc);
    for row in rows {
        let Ok(row) = command_of(alloc, row) else {
            return Err(AllocError);
        };
        let Ok(whole) = command.subcommand(row) else {
            return Err(AllocError);
        };
        command = whole;
    }
    Ok(command)
}

// The whole command line.
fn command<'a>(alloc: Global) -> Result<Command<'a>, AllocError>
    ensures { IfOk result (λ command. app_of command ≡ declared) }
{
    with_commands(alloc, &COMMANDS)
}

// The first word that was found of this name, if any was.
fn option_found<'a>(found: &ArgMatches<'a>, name: &str) -> Option<&'a str>
    ensures { option_map (λ word. word.now) result ≡ first_of name.now (rows_of (found_of found.now)) }
{
    found.get_str(name)
}

// The word that was found of this name.
fn word_found<'a>(found: &ArgMatches<'a>, name: &str) -> Option<&'a str>
    ensures { IfSome result (λ word. first_of name.now (rows_of (found_of found.now)) ≡ Some word.now) }
{
    option_found(found, name)
}

// The two words that were found of these names.
fn two_words<'a>(found: &ArgMatches<'a>, one: &str, other: &str) -> Option<(&'a str, &'a str)>
    ensures { IfSome result (λ two. (first_of one.now (rows_of (found_of found.now)) ≡ Some two.0.now)
        × (first_of other.now (rows_of (found_of found.now)) ≡ Some two.1.now)) }
{
    let Some(one) = word_found(found, one) else {
        return None;
    };
    let Some(other) = word_found(found, other) else {
        return None;
    };
    Some((one, other))
}

// The number that digits alone write.
fn number_of(text: &str) -> Option<u32>
    ensures { IfSome result (Writes text.now) }
{
    if text.as_bytes().first() == Some(&b'+') {
        return None;
    }
    text.parse().ok()
}

// The number that was found of this name.
fn number_found<'a>(found: &ArgMatches<'a>, name: &str) -> Option<u32>
    ensures { IfSome result (IsWritten name.now (rows_of (found_of found.now))) }
{
    let Some(text) = word_found(found, name) else {
        return None;
    };
    number_of(text)
}

// What was found is no number from 1 on.
#[derive(Drop)]
struct NoCount;

// The number from 1 on that was found of this name, if any was.
fn count_found<'a>(found: &ArgMatches<'a>, name: &str) -> Result<Option<NonZeroU64>, NoCount>
    ensures { IfOk result (IsCount name.now (rows_of (found_of found.now))) }
{
    let Some(text) = option_found(found, name) else {
        return Ok(None);
    };
    match NonZeroU64::new(u64::from(number_of(text).ok_or(NoCount)?)) {
        Some(count) => Ok(Some(count)),
        None => Err(NoCount),
    }
}

// What was found is no number.
#[derive(Drop)]
struct NoNumber;

// The number that was found of this name, if any was.
fn amount_found<'a>(found: &ArgMatches<'a>, name: &str) -> Result<Option<u32>, NoNumber>
    ensures { IfOk result (IsAmount name.now (rows_of (found_of found.now))) }
{
    let Some(text) = option_found(found, name) else {
        return Ok(None);
    };
    match number_of(text) {
        Some(number) => Ok(Some(number)),
        None => Err(NoNumber),
    }
}

// The number with a sign that was found of this name, if any was.
fn signed_found<'a>(found: &ArgMatches<'a>, name: &str) -> Result<Option<i32>, NoNumber>
    ensures { IfOk result (IsSigned name.now (rows_of (found_of found.now))) }
{
    let Some(text) = option_found(found, name) else {
        return Ok(None);
    };
    match text.parse::<i32>() {
        Ok(number) => Ok(Some(number)),
        Err(_) => Err(NoNumber),
    }
}

// Whether the flag of this name was found.
fn flag_found<'a>(found: &ArgMatches<'a>, name: &str) -> bool
    ensures { IsTrue result ↔ (first_of name.now (rows_of (found_of found.now)) ≡ Some (codes "true")) }
{
    match found.get_str(name) {
        Some(word) => word == "true",
        None => false,
    }
}

// What the words ask to be reported of a run.
fn telling<'a>(found: &ArgMatches<'a>) -> Option<Telling<'a>>
    ensures { IfSome result (IsTelling (rows_of (found_of found.now))) }
{
    let report = flag_found(found, "report");
    let json = option_found(found, "json");
    let Ok(registers) = count_found(found, "registers") else {
        return None;
    };
    let Ok(memory) = count_found(found, "memory") else {
        return None;
    };
    let status = flag_found(found, "status");
    let progress = flag_found(found, "progress");
    let faults = flag_found(found, "faults");
    let symbols = option_found(found, "symbols");
    Some(Telling {
        report,
        json,
        registers,
        memory,
        status,
        progress,
        faults,
        symbols,
    })
}

// What the words after `flat` ask for.
fn flat<'a>(found: &ArgMatches<'a>) -> Option<Job<'a>>
    ensures { IfSome result (IsJob (Some (codes "flat", rows_of (found_of found.now)))) }
{
    let Some(frames) = number_found(found, "frames") else {
        return None;
    };
    let tlb = flag_found(found, "tlb");
    let Some(telling) = telling(found) else {
        return None;
    };
    let Some((file, script)) = two_words(found, "FILE", "SCRIPT") else {
        return None;
    };
    Some(Job::Flat(Flat {
        frames,
        tlb,
        telling,
        file,
        script,
    }))
}

// What the words of a run ask for, whose last word has this name.
fn run_found<'a>(found: &ArgMatches<'a>, last: &str) -> Option<Run<'a>>
    ensures { IfSome result (IsRun last.now (rows_of (found_of found.now))) }
{
    let Some(frames) = number_found(found, "frames") else {
        return None;
    };
    let tlb = flag_found(found, "tlb");
    let Ok(fail) = count_found(found, "fail") else {
        return None;
    };
    let save = option_found(found, "save");
    let Some(telling) = telling(found) else {
        return None;
    };
    let Some((image, script)) = two_words(found, "IMAGE", last) else {
        return None;
    };
    Some(Run {
        frames,
        tlb,
        fail,
        save,
        telling,
        image,
        script,
    })
}

// What the words after `run` ask for.
fn run<'a>(found: &ArgMatches<'a>) -> Option<Job<'a>>
    ensures { IfSome result (IsJob (Some (codes "run", rows_of (found_of found.now)))) }
{
    let Some(run) = run_found(found, "SCRIPT") else {
        return None;
    };
    Some(Job::Run(run))
}

// What the words after `play` ask for.
fn play<'a>(found: &ArgMatches<'a>) -> Option<Job<'a>>
    ensures { IfSome result (IsJob (Some (codes "play", rows_of (found_of found.now)))) }
{
    let Some(run) = run_found(found, "PLAY") else {
        return None;
    };
    let script = option_found(found, "script");
    Some(Job::Play(Play { run, script }))
}

// Which events of a run the words ask to be shown.
fn part<'a>(found: &ArgMatches<'a>) -> Option<Part<'a>>
    ensures { IfSome result (IsPart (rows_of (found_of found.now))) }
{
    let Ok(pid) = count_found(found, "pid") else {
        return None;
    };
    let calls = option_found(found, "calls");
    let Ok(from) = count_found(found, "from") else {
        return None;
    };
    let Ok(to) = count_found(found, "to") else {
        return None;
    };
    Some(Part {
        pid,
        calls,
        from,
        to,
    })
}

// How the words ask that lines are written.
fn lines<'a>(found: &ArgMatches<'a>) -> Option<Lines>
    ensures { IfSome result (IsLines (rows_of (found_of found.now))) }
{
    let Some(bytes) = number_found(found, "bytes") else {
        return None;
    };
    let each = flag_found(found, "each");
    let time = flag_found(found, "time");
    let turns = flag_found(found, "turns");
    let core_is_pid = flag_found(found, "core-is-pid");
    Some(Lines {
        bytes,
        each,
        time,
        turns,
        core_is_pid,
    })
}

// What the words after `trace` ask for.
fn trace<'a>(found: &ArgMatches<'a>) -> Option<Job<'a>>
    ensures { IfSome result (IsJob (Some (codes "trace", rows_of (found_of found.now)))) }
{
    let Some(run) = run_found(found, "SCRIPT") else {
        return None;
    };
    let Some(part) = part(found) else {
        return None;
    };
    let Some(lines) = lines(found) else {
        return None;
    };
    let text = option_found(found, "text");
    let perfetto = option_found(found, "perfetto");
    let commits = option_found(found, "commits");
    let jsonl = option_found(found, "jsonl");
    let play = flag_found(found, "play");
    Some(Job::Trace(Trace {
        run,
        play,
        part,
        lines,
        text,
        perfetto,
        commits,
        jsonl,
    }))
}

// What the words ask for of a debugger's machine.
fn gdb_found<'a>(found: &ArgMatches<'a>) -> Option<Gdb<'a>>
    ensures { IfSome result (IsGdb (rows_of (found_of found.now))) }
{
    let Some(frames) = number_found(found, "frames") else {
        return None;
    };
    let Some(memory) = number_found(found, "memory") else {
        return None;
    };
    let recorded = option_found(found, "record");
    let symbols = option_found(found, "symbols");
    let Some(image) = word_found(found, "IMAGE") else {
        return None;
    };
    let script = option_found(found, "SCRIPT");
    Some(Gdb {
        frames,
        memory,
        recorded,
        symbols,
        image,
        script,
    })
}

// What the words after `gdb` ask for.
fn gdb<'a>(found: &ArgMatches<'a>) -> Option<Job<'a>>
    ensures { IfSome result (IsJob (Some (codes "gdb", rows_of (found_of found.now)))) }
{
    if flag_found(found, "init") {
        return Some(Job::GdbInit);
    }
    let Some(words) = gdb_found(found) else {
        return None;
    };
    Some(Job::Gdb(words))
}

// What bounds an exploration, by the words.
fn reach<'a>(found: &ArgMatches<'a>) -> Option<Reach>
    ensures { IfSome result (IsReach (rows_of (found_of found.now))) }
{
    let Ok(ticks) = amount_found(found, "ticks") else {
        return None;
    };
    let Some(states) = number_found(found, "states") else {
        return None;
    };
    let Ok(seconds) = count_found(found, "seconds") else {
        return None;
    };
    let fine = flag_found(found, "fine");
    let Ok(random) = count_found(found, "random") else {
        return None;
    };
    let Some(seed) = number_found(found, "seed") else {
        return None;
    };
    Some(Reach {
        ticks,
        states,
        seconds,
        fine,
        random,
        seed,
    })
}

// What the words after `explore` ask for.
fn explore<'a>(found: &ArgMatches<'a>) -> Option<Job<'a>>
    ensures { IfSome result (IsJob (Some (codes "explore", rows_of (found_of found.now)))) }
{
    let Some(frames) = number_found(found, "frames") else {
        return None;
    };
    let Some(reach) = reach(found) else {
        return None;
    };
    let scripts = option_found(found, "scripts");
    let want = option_found(found, "want");
    let Ok(status) = signed_found(found, "status") else {
        return None;
    };
    let Some(image) = word_found(found, "IMAGE") else {
        return None;
    };
    let script = option_found(found, "SCRIPT");
    Some(Job::Explore(Explore {
        frames,
        reach,
        scripts,
        want,
        status,
        image,
        script,
    }))
}

// What the words after `mkfs` ask for.
fn mkfs<'a>(found: &ArgMatches<'a>) -> Option<Job<'a>>
    ensures { IfSome result (IsJob (Some (codes "mkfs", rows_of (found_of found.now)))) }
{
    let Some(size) = number_found(found, "size") else {
        return None;
    };
    let Some(inodes) = number_found(found, "inodes") else {
        return None;
    };
    let Some((manifest, image)) = two_words(found, "MANIFEST", "IMAGE") else {
        return None;
    };
    Some(Job::Mkfs(Mkfs {
        size,
        inodes,
        manifest,
        image,
    }))
}

// What the word after `check` asks for.
fn check<'a>(found: &ArgMatches<'a>) -> Option<Job<'a>>
    ensures { IfSome result (IsJob (Some (codes "check", rows_of (found_of found.now)))) }
{
    let Some(image) = word_found(found, "IMAGE") else {
        return None;
    };
    Some(Job::Check(Check { image }))
}

// What the words after `ls` ask for.
fn ls<'a>(found: &ArgMatches<'a>) -> Option<Job<'a>>
    ensures { IfSome result (IsJob (Some (codes "ls", rows_of (found_of found.now)))) }
{
    let recursive = flag_found(found, "recursive");
    let Some((image, path)) = two_words(found, "IMAGE", "PATH") else {
        return None;
    };
    Some(Job::Ls(Ls {
        recursive,
        image,
        path,
    }))
}

// What the words after `get` ask for.
fn get<'a>(found: &ArgMatches<'a>) -> Option<Job<'a>>
    ensures { IfSome result (IsJob (Some (codes "get", rows_of (found_of found.now)))) }
{
    let Some((image, path)) = two_words(found, "IMAGE", "PATH") else {
        return None;
    };
    let out = option_found(found, "OUT");
    Some(Job::Get(Get { image, path, out }))
}

// What the words after `put` ask for.
fn put<'a>(found: &ArgMatches<'a>) -> Option<Job<'a>>
    ensures { IfSome result (IsJob (Some (codes "put", rows_of (found_of found.now)))) }
{
    let Some((image, path)) = two_words(found, "IMAGE", "PATH") else {
        return None;
    };
    let Some(file) = word_found(found, "FILE") else {
        return None;
    };
    Some(Job::Put(Put { image, path, file }))
}

// What the words after `migrate` ask for.
fn migrate<'a>(found: &ArgMatches<'a>) -> Option<Job<'a>>
    ensures { IfSome result (IsJob (Some (codes "migrate", rows_of (found_of found.now)))) }
{
    let Some((old, new)) = two_words(found, "OLD", "NEW") else {
        return None;
    };
    Some(Job::Migrate(Migrate { old, new }))
}

// What the words after `asm` ask for.
fn asm<'a>(found: &ArgMatches<'a>) -> Option<Job<'a>>
    ensures { IfSome result (IsJob (Some (codes "asm", rows_of (found_of found.now)))) }
{
    let Some((text, elf)) = two_words(found, "TEXT", "ELF") else {
        return None;
    };
    Some(Job::Asm(Asm { text, elf }))
}

// The word of this index, if there is one.
fn word_in<'a>(words: &[&'a str], index: usize) -> Option<&'a str>
    ensures { option_map (λ word. word.now) result ≡ slice_get (map (λ word. word.now) words.now) index }
{
    match words.get(index) {
        Some(word) => Some(*word),
        None => None,
    }
}

// The first eight words that were found of this name.
fn files_found<'a>(found: &ArgMatches<'a>, name: &str) -> Option<Files<'a>>
    ensures { IfSome result (AreFirst name.now (rows_of (found_of found.now))) }
{
    let Some(words) = found.get_strs(name) else {
        return None;
    };
    Some(Files {
        first: word_in(words, 0)?,
        second: word_in(words, 1),
        third: word_in(words, 2),
        fourth: word_in(words, 3),
        fifth: word_in(words, 4),
        sixth: word_in(words, 5),
        seventh: word_in(words, 6),
        eighth: word_in(words, 7),
    })
}

// What the words after `as` ask for.
fn assemble<'a>(found: &ArgMatches<'a>) -> Option<Job<'a>>
    ensures { IfSome result (IsJob (Some (codes "as", rows_of (found_of found.now)))) }
{
    let out = option_found(found, "out");
    let expand = flag_found(found, "expand");
    let debug = flag_found(found, "debug");
    let verbose = flag_found(found, "verbose");
    let Some(texts) = files_found(found, "FILE") else {
        return None;
    };
    Some(Job::As(As {
        texts,
        out,
        expand,
        debug,
        verbose,
    }))
}

// What the words after `dump` ask for.
fn dump<'a>(found: &ArgMatches<'a>) -> Option<Job<'a>>
    ensures { IfSome result (IsJob (Some (codes "dump", rows_of (found_of found.now)))) }
{
    let names = flag_found(found, "names");
    let Some(elf) = word_found(found, "ELF") else {
        return None;
    };
    Some(Job::Dump(Dump { names, elf }))
}

// What the words after `live` ask for.
fn live<'a>(found: &ArgMatches<'a>) -> Option<Job<'a>>
    ensures { IfSome result (IsJob (Some (codes "live", rows_of (found_of found.now)))) }
{
    let Some(frames) = number_found(found, "frames") else {
        return None;
    };
    let Ok(quantum) = count_found(found, "quantum") else {
        return None;
    };
    let script = option_found(found, "record");
    let save = option_found(found, "save");
    let terminal = flag_found(found, "terminal");
    let edit = flag_found(found, "edit");
    let symbols = option_found(found, "symbols");
    let Some(image) = word_found(found, "IMAGE") else {
        return None;
    };
    Some(Job::Live(Live {
        frames,
        quantum,
        script,
        save,
        terminal,
        edit,
        symbols,
        image,
    }))
}

// The job that was found, which works on the text or the file of a program.
fn program_job<'a>(matches: &ArgMatches<'a>) -> Option<Job<'a>>
    ensures { IfSome result (IsJob (subcommand_rows_of matches.now)) }
{
    if let Some(found) = matches.subcommand_matches("asm") {
        return asm(found);
    }
    if let Some(found) = matches.subcommand_matches("as") {
        return assemble(found);
    }
    if let Some(found) = matches.subcommand_matches("dump") {
        return dump(found);
    }
    None
}

// The job that was found, which takes or changes files of an image, or works on a program.
fn file_job<'a>(matches: &ArgMatches<'a>) -> Option<Job<'a>>
    ensures { IfSome result (IsJob (subcommand_rows_of matches.now)) }
{
    if let Some(found) = matches.subcommand_matches("get") {
        return get(found);
    }
    if let Some(found) = matches.subcommand_matches("put") {
        return put(found);
    }
    if let Some(found) = matches.subcommand_matches("migrate") {
        return migrate(found);
    }
    program_job(matches)
}

// The job that was found, which doesn't boot a machine.
fn image_job<'a>(matches: &ArgMatches<'a>) -> Option<Job<'a>>
    ensures { IfSome result (IsJob (subcommand_rows_of matches.now)) }
{
    if let Some(found) = matches.subcommand_matches("mkfs") {
        return mkfs(found);
    }
    if let Some(found) = matches.subcommand_matches("check") {
        return check(found);
    }
    if let Some(found) = matches.subcommand_matches("ls") {
        return ls(found);
    }
    file_job(matches)
}

// The job that was found, which explores, or doesn't boot a machine.
fn search_job<'a>(matches: &ArgMatches<'a>) -> Option<Job<'a>>
    ensures { IfSome result (IsJob (subcommand_rows_of matches.now)) }
{
    if let Some(found) = matches.subcommand_matches("explore") {
        return explore(found);
    }
    image_job(matches)
}

// The job that was found.
fn job_found<'a>(matches: &ArgMatches<'a>) -> Option<Job<'a>>
    ensures { IfSome result (IsJob (subcommand_rows_of matches.now)) }
{
    if let Some(found) = matches.subcommand_matches("flat") {
        return flat(found);
    }
    if let Some(found) = matches.subcommand_matches("run") {
        return run(found);
    }
    if let Some(found) = matches.subcommand_matches("live") {
        return live(found);
    }
    if let Some(found) = matches.subcommand_matches("play") {
        return play(found);
    }
    if let Some(found) = matches.subcommand_matches("trace") {
        return trace(found);
    }
    if let Some(found) = matches.subcommand_matches("gdb") {
        return gdb(found);
    }
    search_job(matches)
}

// Whether a debugger's machine was found that has no image.
fn lacks_image<'a>(matches: &ArgMatches<'a>) -> bool {
    match matches.subcommand_matches("gdb") {
        Some(found) => !flag_found(found, "init") && option_found(found, "IMAGE").is_none(),
        None => false,
    }
}

// Why the words are no job, where the command line let them pass: a debugger has no image, or a number has a sign.
fn refused<'a>(command: &mut Command<'a>, lacks_image: bool) -> Error {
    let refused = if lacks_image {
        command.error(
            ErrorKind::MissingRequiredArgument,
            "the command gdb needs an IMAGE, or --init",
        )
    } else {
        command.error(
            ErrorKind::ValueValidation,
            "a number is written in digits alone",
        )
    };
    match refused {
        Ok(error) => error,
        Err(error) => Error::from(error),
    }
}

// The job that the command line reads in the words.
fn job_read<'a>(command: &mut Command<'a>, words: &'a [&'a str]) -> Result<Job<'a>, Error>
    requires { app_of command.old ≡ declared }
    ensures { IfOk result (IsJob (subcommand_of declared (map (λ word. word.now) words.now))) }
{
    let matches = command.try_get_matches_from_mut(words)?;
    match job_found(&matches) {
        Some(job) => Ok(job),
        None => Err(refused(command, lacks_image(&matches))),
    }
}

/// The job that the words name; the first of them is the program's name. An error is a refusal,
/// the help that the words ask for, or want of memory.
pub fn job<'a>(alloc: Global, words: &'a [&'a str]) -> Result<Job<'a>, Error>
    ensures { IfOk result (IsJob (subcommand_of declared (map (λ word. word.now) words.now))) }
{
    let mut command = command(alloc)?;
    job_read(&mut command, words)
}

// Whether the option is among these words, before any `--`.
fn asks(words: &[&str]) -> bool
    ensures { result ≡ asks words.now }
{
    for word in words {
        if *word == "--" {
            return false;
        }
        if *word == "--explain" {
            return true;
        }
    }
    false
}

/// Whether the words ask for more on what is wrong, in a line after the usual one.
pub fn explains(words: &[&str]) -> bool
    ensures { result ≡ asks_more words.now }
{
    match words {
        [] => false,
        [_program, words @ ..] => asks(words),
    }
}
