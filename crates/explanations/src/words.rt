//! The words that texts and command lines are made of.
ghost use Rattle.std.specs.Prelude.{◌≡◌, ◌==◌, IfSome, option_map};
ghost use Rattle.std.specs.List.{before_first};
ghost use Rattle.explanations.specs.Words.{IsLastWord, IsNumberBehind, after_line, line_of};

/// The commands.
pub const COMMANDS: [&str; 16] = [
    "flat", "run", "live", "play", "trace", "gdb", "explore", "mkfs", "check", "ls", "get", "put",
    "migrate", "asm", "as", "dump",
];

/// What a line of a script begins with.
pub const SCRIPT: [&str; 4] = ["step", "tick", "keys", "type"];

/// What a line of a play begins with.
pub const PLAY: [&str; 8] = [
    "step", "tick", "keys", "type", "until", "every", "random", "repeat",
];

/// The calls.
pub const CALLS: [&str; 21] = [
    "fork", "exit", "wait", "pipe", "read", "kill", "exec", "fstat", "chdir", "dup", "getpid",
    "sbrk", "sleep", "uptime", "open", "write", "mknod", "unlink", "link", "mkdir", "close",
];

/// What a line of a manifest begins with.
pub const MANIFEST: [&str; 3] = ["dir", "file", "dev"];

/// What a line of an assembly text begins with.
pub const ASSEMBLY: [&str; 76] = [
    "add", "sub", "sll", "slt", "sltu", "xor", "srl", "sra", "or", "and", "mul", "mulh", "mulhsu",
    "mulhu", "div", "divu", "rem", "remu", "addw", "subw", "sllw", "srlw", "sraw", "mulw", "divw",
    "divuw", "remw", "remuw", "addi", "slti", "sltiu", "xori", "ori", "andi", "slli", "srli",
    "srai", "slliw", "srliw", "sraiw", "lb", "lh", "lw", "ld", "lbu", "lhu", "lwu", "sb", "sh",
    "sw", "sd", "beq", "bne", "blt", "bge", "bltu", "bgeu", "addiw", "jalr", "jal", "lui", "auipc",
    "fence", "ecall", "ebreak", "li", "la", "mv", "j", "ret", ".byte", ".word", ".dword", ".ascii",
    ".zero", ".pad",
];

// The text up to its first line feed, or all where it has none.
fn first_line(text: &str) -> &str
    ensures { result.now ≡ before_first (λ c. c == 10) text.now }
{
    match text.split_once('\n') {
        Some((line, _)) => line,
        None => text,
    }
}

// The text after its first line feed, if it has one.
fn after_line(text: &str) -> Option<&str>
    ensures { option_map (λ rest. rest.now) result ≡ after_line text.now }
{
    let (_, rest) = text.split_once('\n')?;
    Some(rest)
}

/// The line of this number of a text, counted from 1, without its line feed alone.
pub fn line_of(text: &str, number: usize) -> Option<&str>
    ensures { option_map (λ line. line.now) result ≡ line_of number text.now }
{
    let before = number.checked_sub(1)?;
    let mut rest = text;
    for _line in 0..before {
        rest = after_line(rest)?;
    }
    Some(first_line(rest))
}

/// The first word of a line that isn't a label.
pub fn first_word(line: &str) -> &str {
    for word in line.split_ascii_whitespace() {
        if !word.ends_with(':') {
            return word;
        }
    }
    ""
}

// What comes before the first colon, or all where there is none.
fn before_colon(text: &str) -> &str
    ensures { result.now ≡ before_first (λ c. c == 58) text.now }
{
    match text.split_once(':') {
        Some((front, _)) => front,
        None => text,
    }
}

/// The number that follows a beginning of a line.
pub fn number_behind(line: &str, beginning: &str) -> Option<usize>
    ensures { IfSome result (IsNumberBehind line.now beginning.now) }
{
    let rest = line.strip_prefix(beginning)?;
    before_colon(rest).parse().ok()
}

/// The last word of a line.
pub fn last_word(line: &str) -> &str
    ensures { IsLastWord line.now result.now }
{
    match line.rsplit_once(' ') {
        Some((_, word)) => word,
        None => line,
    }
}
