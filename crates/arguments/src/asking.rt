// The arguments: a command, options anywhere after it, and what it is about. Wrong usage is said in
// one line that names what is wrong.

use crate::{Asked, Command};
use desk::{Failure, say};
use std::env::{Env, FillError};

// The command of a word.
fn command_of(word: &[u8]) -> Option<Command> {
    let command = match word {
        b"emboss" => Command::Emboss,
        b"preview" => Command::Preview,
        b"read" => Command::Read,
        b"check" => Command::Check,
        b"stamp" => Command::Stamp,
        b"date" => Command::Date,
        b"undate" => Command::Undate,
        b"make" => Command::Make,
        b"show" => Command::Show,
        b"mark" => Command::Mark,
        b"help" | b"--help" | b"-h" => Command::Help,
        b"--version" => Command::Version,
        _ => return None,
    };
    Some(command)
}

// The options that take a value.
#[derive(Clone, Copy)]
enum Choice {
    Width,
    Page,
    Year,
    Following,
    Output,
}

// The option of a word that begins with a hyphen.
fn choice_of(word: &[u8]) -> Option<Choice> {
    let choice = match word {
        b"--width" => Choice::Width,
        b"--page" => Choice::Page,
        b"--year" => Choice::Year,
        b"--following" => Choice::Following,
        b"-o" => Choice::Output,
        _ => return None,
    };
    Some(choice)
}

// What an option wants.
fn wish_of(choice: Choice) -> &'static str {
    match choice {
        Choice::Width => "--width wants a number",
        Choice::Page => "--page wants a number",
        Choice::Year => "--year wants a number from 0 to 65535",
        Choice::Following => "--following wants one ASCII character",
        Choice::Output => "-o wants the name of a file",
    }
}

// The number that a word is in decimal, of at most nine digits.
fn number_of(word: &[u8]) -> Option<usize> {
    if word.is_empty() {
        return None;
    }
    let mut n = 0;
    for byte in word {
        if !byte.is_ascii_digit() {
            return None;
        }
        if 99999999 < n {
            return None;
        }
        n = n * 10 + usize::from(*byte - b'0');
    }
    Some(n)
}

// Says which word is wrong.
fn wrong(rt: &HostRuntime, before: &[u8], word: &[u8], after: &[u8]) -> Failure {
    say(rt, before);
    say(rt, word);
    say(rt, after);
    Failure::Usage
}

// What is asked for with the value of an option, which is argument `i`, if it is one of its values.
fn with_value(asked: Asked, choice: Choice, word: &[u8], i: usize) -> Option<Asked> {
    let next = match choice {
        Choice::Width => Asked {
            width: number_of(word)?,
            ..asked
        },
        Choice::Page => Asked {
            page: number_of(word)?,
            ..asked
        },
        Choice::Year => Asked {
            year: u16::try_from(number_of(word)?).ok()?,
            ..asked
        },
        Choice::Following => match word {
            [following] => Asked {
                following: *following,
                ..asked
            },
            _ => return None,
        },
        Choice::Output => Asked {
            output: Some(i),
            ..asked
        },
    };
    Some(next)
}

// What is asked for so far, and the option whose value comes next.
#[derive(Clone, Copy)]
struct Taking {
    asked: Asked,
    waiting: Option<Choice>,
}

impl From<Asked> for Taking {
    fn from(asked: Asked) -> Taking {
        Taking {
            asked,
            waiting: None,
        }
    }
}

// The value of an option, which is argument `i`.
fn take_value(
    rt: &HostRuntime,
    asked: Asked,
    choice: Choice,
    word: &[u8],
    i: usize,
) -> Result<Taking, Failure> {
    match with_value(asked, choice, word, i) {
        Some(next) => Ok(Taking::from(next)),
        None => {
            let wish = wish_of(choice);
            let _ = eprint!(rt; "press: {wish}, not '");
            Err(wrong(rt, b"", word, b"'\n"))
        }
    }
}

fn take_option(rt: &HostRuntime, asked: Asked, word: &[u8]) -> Result<Taking, Failure> {
    if word == b"--ink".as_slice() {
        return Ok(Taking::from(Asked { ink: true, ..asked }));
    }
    match choice_of(word) {
        Some(choice) => Ok(Taking {
            asked,
            waiting: Some(choice),
        }),
        None => Err(wrong(
            rt,
            b"press: there is no option '",
            word,
            b"'; press help lists them\n",
        )),
    }
}

// Whether a command takes a second name: a text.
fn takes_text(command: Option<Command>) -> bool {
    matches!(command, Some(Command::Emboss | Command::Preview))
}

// An argument that is no option: the table or the file, then the text.
fn take_name(
    rt: &HostRuntime,
    command: Option<Command>,
    asked: Asked,
    word: &[u8],
    i: usize,
) -> Result<Taking, Failure> {
    let next = match asked {
        Asked { first: None, .. } => Asked {
            first: Some(i),
            ..asked
        },
        Asked { second: None, .. } if takes_text(command) => Asked {
            second: Some(i),
            ..asked
        },
        _ => return Err(wrong(rt, b"press: '", word, b"' is one name too many\n")),
    };
    Ok(Taking::from(next))
}

fn is_option(word: &[u8]) -> bool {
    matches!(word, [b'-', _, ..])
}

// Argument `i`, of this word.
fn take_word(
    rt: &HostRuntime,
    command: Option<Command>,
    so_far: Taking,
    word: &[u8],
    i: usize,
) -> Result<Taking, Failure> {
    let Taking { asked, waiting } = so_far;
    match waiting {
        Some(choice) => take_value(rt, asked, choice, word, i),
        None if is_option(word) => take_option(rt, asked, word),
        None => take_name(rt, command, asked, word, i),
    }
}

fn say_long(rt: &HostRuntime, i: usize) -> Failure {
    let _ = eprintln!(rt; "press: argument {i} has more than 4,096 bytes");
    Failure::Usage
}

fn take_one(
    rt: &HostRuntime,
    command: Option<Command>,
    so_far: Taking,
    i: usize,
) -> Result<Taking, Failure> {
    let mut word = io::buffer();
    let length = rt.arg(i, &mut word).map_err(|_| say_long(rt, i))?;
    take_word(rt, command, so_far, &word[..length], i)
}

// What is asked for where nothing is said of it.
const DEFAULTS: Asked = Asked {
    ink: false,
    first: None,
    second: None,
    output: None,
    width: 40,
    page: 25,
    year: 65535,
    following: b' ',
};

// The arguments after the command, if there is one.
pub fn take_rest(rt: &HostRuntime, command: Option<Command>) -> Result<Asked, Failure> {
    let mut taking = Taking::from(DEFAULTS);
    for i in 2..arg_count(rt) {
        taking = take_one(rt, command, taking, i)?;
    }
    match taking.waiting {
        Some(choice) => {
            let wish = wish_of(choice);
            let _ = eprintln!(rt; "press: {wish}");
            Err(Failure::Usage)
        }
        None => Ok(taking.asked),
    }
}

// The command that argument `i` is. Where it is none, that has been said.
pub fn take_command(rt: &HostRuntime, i: usize) -> Result<Command, Failure> {
    let mut word = io::buffer();
    let length = rt.arg(i, &mut word).map_err(|_| say_long(rt, i))?;
    let word = &word[..length];
    command_of(word).ok_or_else(|| {
        wrong(
            rt,
            b"press: there is no command '",
            word,
            b"'; press help lists them\n",
        )
    })
}

// How many arguments there are, the program's name among them.
fn arg_count(rt: &HostRuntime) -> usize {
    for i in 0..usize::MAX {
        if let Err(FillError::NotPresent) = rt.arg(i, &mut []) {
            return i;
        }
    }
    usize::MAX
}

// The first argument is the command, if there is one.
pub fn take_first(rt: &HostRuntime) -> Result<Option<Command>, Failure> {
    if arg_count(rt) < 2 {
        return Ok(None);
    }
    Ok(Some(take_command(rt, 1)?))
}
