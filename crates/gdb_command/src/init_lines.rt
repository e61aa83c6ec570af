//! What gdb needs before it connects.
ghost use Rattle.host.specs.Reports.{IsPrintStatus};

use host::print;
use std::io::Write;

/// The lines. gdb waits a minute for the machine to boot, finds programs on it (`sysroot`), keeps both processes of a
/// fork, lets all of them run where one does, and `run` begins again with process 1.
const INIT_LINES: &str = "\
set remotetimeout 60
set sysroot target:
set detach-on-fork off
set schedule-multiple on
set remote exec-file /init
set confirm off
define last
  watch -l $arg0
  reverse-continue
end
document last
Goes back to the last store that changed EXPR: last EXPR
end
";

/// Prints the lines, and returns the status to exit with.
pub fn print_init_lines<W: Write, E: Write>(stdout: &mut W, stderr: &mut E) -> u8
    ensures { IsPrintStatus result }
{
    print(&INIT_LINES, stdout, stderr)
}
