// Where the result goes: to standard output, or to a file. A file is written as a new one beside
// it, which takes its name when it is whole; so a run that is refused, fails or is interrupted
// leaves the old file as it was.

ghost use Rattle.std.specs.Prelude.{◌≡◌, ◌+◌, ◌≤◌, length};
ghost use Rattle.io.specs.Counts.{IsPrefixLen};

use crate::Failure;
use crate::saying::{argument, failed, printed, say};
use console::{not_text, write_whole};
use std::fs::{File, OpenOptions, Permissions};
use std::io::{Error, ErrorKind};
use std::os::unix::fs::{OpenOptionsExt, PermissionsExt};
use std::random::RandomSource;

// How many names of a new file are tried, each chosen by chance, before there is none.
const TRIES: usize = 1000;

// The characters of a name that is chosen by chance.
const CHARACTERS: [u8; 62] = *b"abcdefghijklmnopqrstuvwxyzABCDEFGHIJKLMNOPQRSTUVWXYZ0123456789";

// The bytes are in the new file, on the disk, and the file is closed.
fn fill(mut file: File, bytes: &[u8]) -> Result<(), Error> {
    write_whole(&mut file, bytes)?;
    file.set_permissions(Permissions::from_mode(0o644))?;
    file.sync_all()
}

// Takes the new file away again, and says what failed.
fn drop_made(rt: &HostRuntime, made: &str, to: &str, error: Error) -> Failure {
    let failure = failed(rt, to.as_bytes(), error);
    let _ = std::fs::remove_file(rt, made);
    failure
}

// The new file `made`, which is open, gets the bytes and then the name `to`.
fn fill_and_rename(
    rt: &HostRuntime,
    file: File,
    made: &str,
    to: &str,
    bytes: &[u8],
) -> Result<(), Failure> {
    fill(file, bytes)
        .and_then(|()| std::fs::rename(rt, made, to))
        .map_err(|error| drop_made(rt, made, to, error))
}

// The name of a new file beside the one of this name, and how long it is.
fn name_beside(to: &[u8], made: &mut [u8]) -> usize
    requires { length to.now + 7 ≤ length made.old }
    ensures within { IsPrefixLen result made.new }
    ensures whole { result ≡ length to.now + 7 }
{
    let length = to.len();
    let end = length + 7;
    made[..length].copy_from_slice(to);
    made[length..end].copy_from_slice(b".XXXXXX");
    end
}

// Other characters by chance.
fn choose(rt: &HostRuntime, word: &mut [u8]) -> Result<(), Error> {
    rt.fill_bytes(word)?;
    for byte in word {
        *byte = CHARACTERS[usize::from(*byte % 62)];
    }
    Ok(())
}

// A new file that only its owner may read, and none that was there.
fn create_new(rt: &HostRuntime, name: &str) -> Result<File, Error> {
    OpenOptions::new()
        .read(true)
        .write(true)
        .create_new(true)
        .mode(0o600)
        .open(rt, name)
}

// A new file of the name `made`, whose last six bytes are chosen so that there was none.
fn create_temp(rt: &HostRuntime, made: &mut [u8]) -> Result<File, Error> {
    let from = made.len().saturating_sub(6);
    for _ in 0..TRIES {
        choose(rt, &mut made[from..])?;
        let name = std::str::from_utf8(made).map_err(|_| not_text())?;
        match create_new(rt, name) {
            Err(error) if error.kind() == ErrorKind::AlreadyExists => {}
            created => return created,
        }
    }
    Err(Error::from(ErrorKind::AlreadyExists))
}

// The new file of the name `made`, whose last six bytes are chosen, gets the bytes and then the name
// `to`.
fn keep_by(rt: &HostRuntime, made: &mut [u8], to: &[u8], bytes: &[u8]) -> Result<(), Failure> {
    let file = create_temp(rt, made).map_err(|error| failed(rt, to, error))?;
    match (std::str::from_utf8(made), std::str::from_utf8(to)) {
        (Ok(made), Ok(to)) => fill_and_rename(rt, file, made, to, bytes),
        _ => Err(failed(rt, to, not_text())),
    }
}

// A new file beside the one of this name.
fn keep_as(rt: &HostRuntime, to: &[u8], bytes: &[u8]) -> Result<(), Failure> {
    let mut made = io::buffer();
    if 4080 < to.len() {
        say(rt, b"press: the name after -o has more than 4,080 bytes\n");
        return Err(Failure::System);
    }
    let end = name_beside(to, &mut made);
    keep_by(rt, &mut made[..end], to, bytes)
}

// To standard output.
pub fn print(rt: &HostRuntime, bytes: &[u8]) -> Result<(), Failure> {
    printed(rt, write_whole(&mut rt.stdout(), bytes))
}

// To the file of this name. A device is none that a file shall replace.
fn keep_named(rt: &HostRuntime, name: &[u8], bytes: &[u8]) -> Result<(), Failure> {
    if name.starts_with(b"/dev/") {
        say(
            rt,
            b"press: -o wants the name of a file, not that of a device, '",
        );
        say(rt, name);
        say(rt, b"'\n");
        return Err(Failure::Usage);
    }
    keep_as(rt, name, bytes)
}

// To the file that argument `to` names, or to standard output where there is none.
pub fn keep(rt: &HostRuntime, to: Option<usize>, bytes: &[u8]) -> Result<(), Failure> {
    let Some(i) = to else {
        return print(rt, bytes);
    };
    let mut name = io::buffer();
    let length = argument(rt, i, &mut name);
    keep_named(rt, &name[..length], bytes)
}
