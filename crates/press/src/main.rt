// The program of the press room: it reads its arguments and runs the command that they ask for. One
// function does the whole run and answers what ended it, if it isn't done; the exit status is 0 done,
// 1 refused, 2 wrong usage, 3 a file that can't be opened, read or written. A pipe that is closed
// early is a write that fails, with a message. No contract can say what files hold, so it promises
// only that it is safe and ends; the runs are compared (tests/press).

#![tactic(auto)]

use desk::Failure;
use std::process::ExitCode;

// Runs the program on its arguments.
pub fn press_run(rt: &HostRuntime) -> Result<(), Failure> {
    let command = arguments::take_first(rt)?;
    let asked = arguments::take_rest(rt, command)?;
    commands::run(rt, command, asked)
}

fn main(rt: HostRuntime) -> ExitCode {
    match press_run(&rt) {
        Ok(()) => ExitCode::SUCCESS,
        Err(failure) => ExitCode::from(u8::from(failure)),
    }
}
