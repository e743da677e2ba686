// What `help` says. Each piece is one write, whatever became of the one before.
use outlets::Outlet;
use std::io;

// The ways to call the program.
pub(crate) const USAGE: [&str; 3] = [
    "  tokenglade job [SHEET] [--record FILE] [--seeds FILE] [--allow-empty]\n",
    "  tokenglade tokens [SHEET]\n",
    "  tokenglade help\n",
];

const COMMANDS: [&str; 16] = [
    "\njob     writes the seeds of SHEET, one a line, and behind them whether the job is done:\n",
    "        `done COUNT`, or `not done NUMBER LINE COLUMN COUNT` with the refusal's number and place\n",
    "tokens  lists the tokens of SHEET\n",
    "SHEET   is a file; none, or -, is standard input\n\n",
    "--record FILE   that last line goes to FILE. It is there only when all seeds are written\n",
    "--seeds FILE    the seeds go to FILE\n",
    "--allow-empty   an empty list of seeds is no fault\n",
    "--              what follows is a name, also where it begins with -\n\n",
    "An old FILE is removed before the sheet is read.\n\n",
    "A job sheet, with its fields in any order:\n\n",
    "  sample: S-1\n",
    "  panel: P-2\n",
    "  seeds: [17, 4, 4294967295]\n\n",
    "Exit status: 0 done, with at least one seed (tokens: accepted); 1 not done: refused;\n",
    "2 wrong arguments, or a sheet that could not be read to its end;\n",
    "3 something could not be written; 4 done, but the list of seeds is empty.\n",
];

// The error is the latest.
fn put_lines(to: &mut Outlet, lines: &[&str]) -> io::Result<()> {
    let mut put = Ok(());
    for line in lines {
        let r = to.put(line.as_bytes());
        put = r.and(put);
    }
    put
}

pub(crate) fn say_help(to: &mut Outlet) -> io::Result<()> {
    let title = to.put(b"tokenglade reads job sheets.\n\n");
    let usage = put_lines(to, &USAGE);
    let commands = put_lines(to, &COMMANDS);
    commands.and(usage).and(title)
}
