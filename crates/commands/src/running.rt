// The commands: each reads what it is about, calls the proved crates, and writes the result or
// explains the refusal.

use crate::inking::{is_ink, mark_text, read_ink};
use crate::{FILE, IMAGE, INKPRINT, LAYOUT, MARKED, READABLE, TEXT, Text, room};
use arguments::{Asked, Command, help, take_command, version};
use desk::{
    Failure, front, keep, printed, read_argument, read_text, refused_file, refused_text, say,
    say_argument, say_refused, show,
};
use pages::Sheet;
use reports::{Table, load, load_readable, print_stamp, print_table, refused_table};
use table::{Numbered, Refusal};
use translation::Setting;

// A command on a table that is there.
#[derive(Clone, Copy)]
struct Job<'a> {
    command: Command,
    asked: Asked,
    table: Table<'a>,
}

fn sheet_of(asked: Asked) -> Sheet {
    Sheet {
        width: asked.width,
        length: asked.page,
    }
}

fn setting_of(asked: Asked) -> Setting {
    Setting {
        following: asked.following,
        year: asked.year,
    }
}

// A refusal of a table, in words.
fn table_refused<R: Numbered + Copy>(rt: &HostRuntime, refusal: R, table: Table) -> Failure {
    refused_table(rt, refusal.number(), refusal.place(), table)
}

// A refusal of a layout or a file, in words.
fn file_refused(rt: &HostRuntime, refusal: Refusal, file: &[u8], sheet: Sheet) -> Failure {
    refused_file(rt, refusal.number(), refusal.place(), file, sheet)
}

// ---- Emboss and preview

// The layout is shown, or its file kept.
fn deliver(rt: &HostRuntime, job: Job, layout: &[u8]) -> Result<(), Failure> {
    if job.command == Command::Preview {
        return printed(rt, show(rt, layout));
    }
    let sheet = sheet_of(job.asked);
    let mut file = room::<LAYOUT>();
    let written = files::write_file(layout, sheet, &mut file).map_err(|refusal| file_refused(
        rt, refusal, layout, sheet,
    ))?;
    keep(rt, job.asked.output, front(&file, written))
}

// Why there is no layout. The place of a marked text is told in its inkprint.
fn not_embossed(rt: &HostRuntime, job: Job, text: Text, refusal: Refusal) -> Failure {
    let (text, place) = match (refusal, text.written) {
        (
            Refusal::Frame
            | Refusal::Alphabet(_)
            | Refusal::Contraction(_)
            | Refusal::Context(_)
            | Refusal::Transition(_)
            | Refusal::Decision(_)
            | Refusal::NoBlank
            | Refusal::Grouping(_),
            _,
        ) => return table_refused(rt, refusal, job.table),
        (Refusal::LongText | Refusal::Unknown(_), Some(written)) => {
            (written, ink::source(written, refusal.place()))
        }
        _ => (text.marked, refusal.place()),
    };
    let Asked { following, .. } = job.asked;
    refused_text(
        rt,
        refusal.number(),
        place,
        text,
        following,
        sheet_of(job.asked),
    )
}

// The text by a table that is there.
fn emboss_text(rt: &HostRuntime, job: Job, text: Text) -> Result<(), Failure> {
    let Job { asked, table, .. } = job;
    let mut out = room::<LAYOUT>();
    let answer = layout::emboss(
        setting_of(asked),
        table.image,
        text.marked,
        sheet_of(asked),
        &mut out,
    );
    let laid = answer.map_err(|refusal| not_embossed(rt, job, text, refusal))?;
    deliver(rt, job, front(&out, laid.written))
}

fn emboss_ink(rt: &HostRuntime, job: Job) -> Result<(), Failure> {
    let mut text = room::<INKPRINT>();
    let mut marked = room::<MARKED>();
    let text = read_ink(rt, job.asked.second, &mut text, &mut marked)?;
    emboss_text(rt, job, text)
}

fn emboss_by(rt: &HostRuntime, job: Job) -> Result<(), Failure> {
    if is_ink(rt, job.asked) {
        return emboss_ink(rt, job);
    }
    let mut text = room::<TEXT>();
    let length = read_text(rt, job.asked.second, &mut text)?;
    emboss_text(
        rt,
        job,
        Text {
            marked: front(&text, length),
            written: None,
        },
    )
}

// ---- Read

fn read_file(rt: &HostRuntime, asked: Asked, file: &[u8]) -> Result<(), Failure> {
    let sheet = sheet_of(asked);
    let mut out = room::<FILE>();
    let written = files::read_file(file, sheet, &mut out).map_err(|refusal| file_refused(
        rt, refusal, file, sheet,
    ))?;
    printed(rt, show(rt, front(&out, written)))
}

fn read(rt: &HostRuntime, asked: Asked, first: usize) -> Result<(), Failure> {
    let mut file = room::<FILE>();
    let length = read_argument(rt, first, &mut file)?;
    if 524288 < length {
        say(rt, b"press: ");
        say_argument(rt, first);
        say(
            rt,
            b" has more than 524,288 bytes, which is more than this program has room for\n",
        );
        return Err(Failure::System);
    }
    read_file(rt, asked, front(&file, length))
}

// ---- Tables

fn check_table(rt: &HostRuntime, job: Job) -> Result<(), Failure> {
    let Job { asked, table, .. } = job;
    judge::check(table.image).map_err(|refusal| table_refused(rt, refusal, table))?;
    printed(rt, print_table(rt, table.image, asked.year))
}

fn stamp_table(rt: &HostRuntime, table: Table) -> Result<(), Failure> {
    match stamp::stamp(table.image) {
        Err(refusal) => Err(table_refused(rt, refusal, table)),
        stamped => printed(rt, print_stamp(rt, stamped)),
    }
}

// A mover refuses a table with 1 where it is wrong, and where it has the other form already.
fn not_moved(rt: &HostRuntime, refusal: Refusal, table: Table, form: &str) -> Failure {
    if refusal == Refusal::Frame && judge::check(table.image).is_ok() {
        say_refused(rt, refusal.number(), refusal.place());
        let _ = eprintln!(rt; ": this table has the {form} form already");
        return Failure::Refused;
    }
    table_refused(rt, refusal, table)
}

// The table in the form that a mover gives it.
fn move_table<M: FnOnce(&[u8], &mut [u8]) -> Result<usize, Refusal>>(
    rt: &HostRuntime,
    job: Job,
    mover: M,
    form: &str,
) -> Result<(), Failure>
    requires { M.IsAlwaysCallable mover }
{
    let Job { asked, table, .. } = job;
    let mut out = room::<IMAGE>();
    let moved = mover(table.image, &mut out);
    let written = moved.map_err(|refusal| not_moved(rt, refusal, table, form))?;
    keep(rt, asked.output, front(&out, written))
}

// The readable form of a table.
fn show_table(rt: &HostRuntime, job: Job) -> Result<(), Failure> {
    let Job { asked, table, .. } = job;
    let mut out = room::<LAYOUT>();
    let shown = tables::show(table.image, &mut out);
    let written = shown.map_err(|undrawn| table_refused(rt, undrawn, table))?;
    keep(rt, asked.output, front(&out, written))
}

// The image of a readable table is kept, whether the table is right or not; what is wrong with it is
// said.
fn keep_made(rt: &HostRuntime, asked: Asked, table: Table) -> Result<(), Failure> {
    keep(rt, asked.output, table.image)?;
    judge::check(table.image).map_err(|refusal| table_refused(rt, refusal, table))
}

fn make_table(rt: &HostRuntime, asked: Asked, first: usize) -> Result<(), Failure> {
    let mut text = room::<READABLE>();
    let mut image = room::<IMAGE>();
    let table = load_readable(rt, first, &mut text, &mut image)?;
    keep_made(rt, asked, table)
}

fn with_table(rt: &HostRuntime, job: Job) -> Result<(), Failure> {
    match job.command {
        Command::Emboss | Command::Preview => emboss_by(rt, job),
        Command::Check => check_table(rt, job),
        Command::Stamp => stamp_table(rt, job.table),
        Command::Date => move_table(rt, job, |image, out| movers::date(image, out), "dated"),
        Command::Show => show_table(rt, job),
        _ => move_table(rt, job, |image, out| movers::undate(image, out), "old"),
    }
}

fn on_table(rt: &HostRuntime, command: Command, asked: Asked, first: usize) -> Result<(), Failure> {
    let mut text = room::<READABLE>();
    let mut image = room::<IMAGE>();
    let table = load(rt, first, &mut text, &mut image)?;
    with_table(
        rt,
        Job {
            command,
            asked,
            table,
        },
    )
}

// ---- Any command

fn usage(rt: &HostRuntime, words: &str) -> Failure {
    let _ = eprintln!(rt; "press: {words}");
    Failure::Usage
}

// Commands that write a file, and those that have to.
fn takes_output(command: Command) -> bool {
    matches!(command, Command::Emboss | Command::Show | Command::Mark) || wants_output(command)
}

fn wants_output(command: Command) -> bool {
    matches!(command, Command::Make | Command::Date | Command::Undate)
}

// The page of the command that argument `i` names, or of all where there is none.
fn help_on(rt: &HostRuntime, i: Option<usize>) -> Result<(), Failure> {
    match i {
        Some(i) => help(rt, Some(take_command(rt, i)?)),
        None => help(rt, None),
    }
}

// A command that wants the name of a table or a file.
fn run_named(rt: &HostRuntime, command: Command, asked: Asked) -> Result<(), Failure> {
    let Some(first) = asked.first else {
        return Err(usage(
            rt,
            "there is no name of a table or a file; press help shows where it goes",
        ));
    };
    if asked.output.is_some() && !takes_output(command) {
        return Err(usage(
            rt,
            "-o goes with emboss, mark, show, make, date and undate alone",
        ));
    }
    if asked.output.is_none() && wants_output(command) {
        return Err(usage(rt, "make, date and undate want -o and the name of a file"));
    }
    match command {
        Command::Read => read(rt, asked, first),
        Command::Make => make_table(rt, asked, first),
        _ => on_table(rt, command, asked, first),
    }
}

pub fn run(rt: &HostRuntime, command: Option<Command>, asked: Asked) -> Result<(), Failure> {
    match command {
        None => Err(usage(rt, "what shall it do? press help lists the commands")),
        Some(Command::Help) => help_on(rt, asked.first),
        Some(Command::Version) => version(rt),
        Some(Command::Mark) => mark_text(rt, asked),
        Some(command) => run_named(rt, command, asked),
    }
}
