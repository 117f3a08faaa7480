// The help of each command, a screen each, with an example that works.

use crate::Command;
use desk::{Failure, print};

const ALL: &[u8] = b"press: inkprint to grade 2 braille by a contraction table

  press emboss TABLE [TEXT]   the embosser file (braille ASCII) of a text
  press preview TABLE [TEXT]  the same as Unicode braille, to look at
  press read FILE             an embosser file as a preview
  press mark [TEXT]           inkprint with the marks that the tables want
  press check TABLE           what a table has, or what is wrong with it
  press stamp TABLE           the stamp that names a table
  press show TABLE            a table as a text that people read
  press make TABLE -o FILE    the table image of such a text
  press date TABLE -o FILE    a table in the old form, given years; undate takes them away
  press help [COMMAND]        this, or a command's own page; press --version

  --width N, --page N  cells in a line, 8 to 60 (40); lines on a page, 2 to 40 (25)
  --year N             the year of the code to print by (65535: what has no end)
  --following C        the character that follows the text (a blank)
  --ink                the text is inkprint, to be marked first, as a file named .txt is
  -o FILE              where the result goes; a refused or failed run leaves FILE as it was

TABLE is a table image, or a readable table, named .table (docs/TABLES.md). Without TEXT it is read
from standard input. Status 0 is done, 1 refused (number, place and reason are on standard error), 2
wrong usage, 3 a file that can't be opened, read or written.

  bin/press preview tables/english.table story.txt
";

const EMBOSS: &[u8] =
    b"press emboss TABLE [TEXT] [-o FILE] [--width N] [--page N] [--year N] [--following C] [--ink]

Translates a text by a table, lays it out in lines and pages and writes the embosser file:
braille ASCII, a line feed after each line, a form feed after each page. At most 16,384 bytes of
text. A chapter that comes in sections: --following is the first character of the next. A text of
inkprint, which is a file named .txt, or any with --ink, is marked first (press help mark).

  printf 'THE CHILDREN READ BRAILLE.' | bin/press emboss tables/english.table -o page.brf
";

const PREVIEW: &[u8] =
    b"press preview TABLE [TEXT] [--width N] [--page N] [--year N] [--following C] [--ink]

What press emboss would write, as Unicode braille, line by line, with a rule between pages.

  printf 'THE CHILDREN READ BRAILLE.' | bin/press preview tables/english.table --width 20
";

const READ: &[u8] = b"press read FILE [--width N] [--page N]

Judges an embosser file by the width and the page, and shows it as a preview. Small letters, a line
that ends in a blank, a line or a page that is too long are refused (16) with their place.

  bin/press read page.brf
";

const CHECK: &[u8] = b"press check TABLE [--year N]

What an accepted table has: its form, letters, entries, how many of them are in force in each year
(and in the one that --year names), right contexts, state variables, decision columns, and its
stamp. Of a refused one the first wrong byte: its section and record, its name, what it holds and
what it may hold, and of a readable table its line.

  bin/press check tables/english.table --year 1932
";

const STAMP: &[u8] = b"press stamp TABLE

Two numbers over the bytes of an accepted table image, in hexadecimal. Another stamp is another
image; one that differs in one or two bytes has another stamp.

  bin/press stamp tables/english.table
";

const MOVERS: &[u8] = b"press date TABLE -o FILE
press undate TABLE -o FILE

date gives each entry of a table in the old form its years, 0 and 65535, which is always;
undate takes such years away again, and refuses a table with an entry that isn't always in force
(17). What one has moved the other moves back byte for byte.

  bin/press date tables/paper.table -o dated.image
";

const MARK: &[u8] = b"press mark [TEXT] [-o FILE]

Marks inkprint, UTF-8, as the tables want it: letters in capitals, = before what was a capital, ==
before a word of capitals, % before an accented letter, $P for each blank line, typographic quotes,
dashes and dots as docs/ENGLISH.md lists them. A character that has no mark is refused (21).

  bin/press mark story.txt
";

const SHOW: &[u8] = b"press show TABLE [-o FILE]

The readable form of a table, a record to a line, in columns: to look at, to keep under version
control, to change by hand and to make again. Making what was shown gives the same image, byte for
byte. Of a readable table it is the same table without its remarks, in columns.

  bin/press show tables/english.table
";

const MAKE: &[u8] = b"press make TABLE -o FILE

The table image of a readable table, which docs/TABLES.md describes. A text that isn't of the form
is refused (22) at the first byte that isn't, with what was expected there. The image of a table
that is of the form and wrong all the same, as by a shift over its length, is written; what is wrong
with it is said with its line, and the status is 1.

  bin/press make tables/english.table -o english.image
";

const VERSION: &[u8] =
    b"press 1 (documents 01 and 02, requests 1, 2, 3, 5, 6 and 14; readable tables; inkprint)\n";

// The page of a command, or of all.
fn page_of(command: Option<Command>) -> &'static [u8] {
    match command {
        Some(Command::Emboss) => EMBOSS,
        Some(Command::Preview) => PREVIEW,
        Some(Command::Read) => READ,
        Some(Command::Check) => CHECK,
        Some(Command::Stamp) => STAMP,
        Some(Command::Date | Command::Undate) => MOVERS,
        Some(Command::Show) => SHOW,
        Some(Command::Mark) => MARK,
        Some(Command::Make) => MAKE,
        Some(Command::Help | Command::Version) | None => ALL,
    }
}

// Prints the page of a command, or of all.
pub fn help(rt: &HostRuntime, command: Option<Command>) -> Result<(), Failure> {
    print(rt, page_of(command))
}

pub fn version(rt: &HostRuntime) -> Result<(), Failure> {
    print(rt, VERSION)
}
