// The papers' run cases: what the whole call answers at its limits, for refusals 1 to 8, 11 and 15
// with their places, where two refusals hold at once, for words that are cut, by what follows the
// text, and in years at the edges of an entry's; the stamps of the table in both forms; and files
// written and read, with refusals 5, 16 and 8. Each case prints its answer in the form of
// `brailleout`. Some go on with the cells and pages; the others say whether the bytes lent are as
// they were. A stamp's line has number, place and its two numbers; a file's has number, place and
// the bytes written, and goes on with the six bytes lent, 170 each before the call.

#![tactic(auto)]

use console::write_whole;
use layout::Laid;
use pages::Sheet;
use stamp::{Stamped, numbers_of};
use table::{Refusal, number_of, place_of};
use translation::Setting;

fn sheet(width: usize, length: usize) -> Sheet {
    Sheet { width, length }
}

// With this symbol following, by the entries that have no end.
fn follows(following: u8) -> Setting {
    Setting {
        following,
        year: 65535,
    }
}

// In this year, with a blank following.
fn in_year(year: u16) -> Setting {
    Setting {
        following: b' ',
        year,
    }
}

// The answer, the cells and the pages.
fn show(rt: &HostRuntime, setting: Setting, image: &[u8], text: &[u8], sheet: Sheet) {
    let mut out = [170u8; 65536];
    let answer = layout::emboss(setting, image, text, sheet, &mut out);
    let _ = console::print_answer(rt, answer);
    if let Ok(Laid { written, .. }) = answer {
        let _ = console::print_pages(rt, &out[..written]);
    }
}

// Whether every byte is as it was lent.
fn as_lent(bytes: &[u8]) -> bool {
    bytes.iter().all(|byte| *byte == 170)
}

// Whether the output is as lent. Where words don't go through nobody is told, and the run's
// comparison finds it.
fn print_kept(rt: &HostRuntime, out: &[u8]) {
    let _ = if as_lent(out) {
        println!(rt; "kept")
    } else {
        println!(rt; "written")
    };
}

// The answer, and whether the output is as lent.
fn tell(
    rt: &HostRuntime,
    setting: Setting,
    image: &[u8],
    text: &[u8],
    sheet: Sheet,
    out: &mut [u8],
) {
    let answer = layout::emboss(setting, image, text, sheet, out);
    let _ = console::print_answer(rt, answer);
    print_kept(rt, out);
}

// As `tell`, with a blank following and 65,536 bytes lent.
fn answered(rt: &HostRuntime, image: &[u8], text: &[u8], sheet: Sheet) {
    let mut out = [170u8; 65536];
    tell(rt, follows(b' '), image, text, sheet, &mut out);
}

// The answer of a stamp.
fn tell_stamp(rt: &HostRuntime, image: &[u8]) {
    let answer = stamp::stamp(image);
    let Stamped { first, second } = numbers_of(answer);
    let _ = println!(rt;
        "{} {} {first} {second}",
        number_of(answer),
        place_of(answer)
    );
}

// The answer of a file, written or read.
fn print_filed(rt: &HostRuntime, answer: Result<usize, Refusal>) {
    let written = answer.unwrap_or(0);
    let _ = println!(rt; "{} {} {written}", number_of(answer), place_of(answer));
}

fn print_six(rt: &HostRuntime, bytes: [u8; 6]) {
    let [a, b, c, d, e, f] = bytes;
    let _ = println!(rt; "{a} {b} {c} {d} {e} {f}");
}

// A file is written from a layout.
fn write(layout: &[u8], sheet: Sheet, out: &mut [u8]) -> Result<usize, Refusal> {
    files::write_file(layout, sheet, out)
}

// A layout is read from a file.
fn read(file: &[u8], sheet: Sheet, out: &mut [u8]) -> Result<usize, Refusal> {
    files::read_file(file, sheet, out)
}

// The answer of one of the two calls, with six bytes lent, and these after it.
fn six<F: FnOnce(&[u8], Sheet, &mut [u8]) -> Result<usize, Refusal>>(
    rt: &HostRuntime,
    call: F,
    bytes: &[u8],
    sheet: Sheet,
)
    requires { F.IsAlwaysCallable call }
{
    let mut out = [170u8; 6];
    print_filed(rt, call(bytes, sheet, &mut out));
    print_six(rt, out);
}

// Its answer with these bytes lent, and whether they are as lent.
fn lent<F: FnOnce(&[u8], Sheet, &mut [u8]) -> Result<usize, Refusal>>(
    rt: &HostRuntime,
    call: F,
    bytes: &[u8],
    sheet: Sheet,
    out: &mut [u8],
)
    requires { F.IsAlwaysCallable call }
{
    print_filed(rt, call(bytes, sheet, out));
    print_kept(rt, out);
}

// Words that are cut, or just aren't: nine A (seven and the hyphen, then two); eight A (whole);
// fifteen A (seven and the hyphen, then eight); sixteen A (twice seven and the hyphen, then two);
// `$P` with nine A (column 0, since the first part has eight cells).
fn cut_words(rt: &HostRuntime, image: &[u8]) {
    show(rt, follows(b' '), image, &[65; 9], sheet(8, 2));
    show(rt, follows(b' '), image, &[65; 8], sheet(8, 2));
    show(rt, follows(b' '), image, &[65; 15], sheet(8, 2));
    show(rt, follows(b' '), image, &[65; 16], sheet(8, 2));
    show(
        rt,
        follows(b' '),
        image,
        &[b'$', b'P', 65, 65, 65, 65, 65, 65, 65, 65, 65],
        sheet(8, 2),
    );
}

// Words and paragraphs: `$P` with seven A (column 0); seven A and one more (a word joined would be
// too long); the empty text.
fn words(rt: &HostRuntime, image: &[u8]) {
    show(
        rt,
        follows(b' '),
        image,
        &[b'$', b'P', 65, 65, 65, 65, 65, 65, 65],
        sheet(8, 2),
    );
    show(
        rt,
        follows(b' '),
        image,
        &[65, 65, 65, 65, 65, 65, 65, b' ', 65],
        sheet(8, 2),
    );
    show(rt, follows(b' '), image, &[], sheet(8, 2));
}

// W 7, 8, 60, 61, and P 1, 2, 40, 41.
fn sizes(rt: &HostRuntime, image: &[u8]) {
    let come = [b'C', b'O', b'M', b'E'];
    answered(rt, image, &come, sheet(7, 2));
    answered(rt, image, &come, sheet(8, 2));
    answered(rt, image, &come, sheet(60, 2));
    answered(rt, image, &come, sheet(61, 2));
    answered(rt, image, &come, sheet(8, 1));
    answered(rt, image, &come, sheet(8, 40));
    answered(rt, image, &come, sheet(8, 41));
}

// Texts of 16,384 and 16,385 bytes.
fn long_texts(rt: &HostRuntime, image: &[u8]) {
    answered(rt, image, &[65; 16384], sheet(8, 2));
    answered(rt, image, &[65; 16385], sheet(8, 2));
}

// Refusals 7 and 8: `A|a` at 2; COME with 3 bytes of output and with none, place 4; with 4, done.
fn text_and_room(rt: &HostRuntime, image: &[u8]) {
    let come = [b'C', b'O', b'M', b'E'];
    answered(rt, image, &[b'A', b'|', b'a'], sheet(8, 2));
    tell(rt, follows(b' '), image, &come, sheet(8, 2), &mut [170; 3]);
    tell(rt, follows(b' '), image, &come, sheet(8, 2), &mut [170; 0]);
    tell(rt, follows(b' '), image, &come, sheet(8, 2), &mut [170; 4]);
}

// A table of 13 bytes, and where two refusals hold at once: a damaged table with a bad width; a bad
// width with an overlong text; an unknown character with too little room; an overlong text with an
// unknown character.
fn orders(rt: &HostRuntime, image: &[u8]) {
    answered(rt, &[0; 13], &[65], sheet(8, 2));
    answered(rt, &[0; 13], &[65], sheet(7, 2));
    answered(rt, image, &[65; 16385], sheet(7, 2));
    tell(
        rt,
        follows(b' '),
        image,
        &[b'a'],
        sheet(8, 2),
        &mut [170; 0],
    );
    answered(rt, image, &[b'a'; 16385], sheet(8, 2));
}

// What follows the text: BLIND before a blank, a period, E and `a`; 15 with an unknown character (7
// is met first) and with no room (15 is).
fn sections(rt: &HostRuntime, image: &[u8]) {
    let blind = [b'B', b'L', b'I', b'N', b'D'];
    show(rt, follows(b' '), image, &blind, sheet(8, 2));
    show(rt, follows(b'.'), image, &blind, sheet(8, 2));
    show(rt, follows(b'E'), image, &blind, sheet(8, 2));
    show(rt, follows(b'a'), image, &blind, sheet(8, 2));
    tell(
        rt,
        follows(b'a'),
        image,
        &[b'a'],
        sheet(8, 2),
        &mut [170; 4],
    );
    tell(rt, follows(b'a'), image, &blind, sheet(8, 2), &mut [170; 0]);
}

// COME in 1931, 1932, 2015 and 2016.
fn in_years(rt: &HostRuntime, dated: &[u8]) {
    let come = [b'C', b'O', b'M', b'E'];
    show(rt, in_year(1931), dated, &come, sheet(8, 2));
    show(rt, in_year(1932), dated, &come, sheet(8, 2));
    show(rt, in_year(2015), dated, &come, sheet(8, 2));
    show(rt, in_year(2016), dated, &come, sheet(8, 2));
}

// The table dated, with COM in force from 1932 to 2015: COME in the years at these edges, and its
// stamp; with COM from 2016 to 2015 (11, at the first-year byte), which has no stamp.
fn years(rt: &HostRuntime, image: &[u8]) {
    let mut dated = [0u8; 246];
    let _ = movers::date(image, &mut dated);
    dated[75] = 140;
    dated[76] = 7;
    dated[77] = 223;
    dated[78] = 7;
    in_years(rt, &dated);
    tell_stamp(rt, &dated);
    dated[75] = 224;
    answered(rt, &dated, &[b'A'], sheet(8, 2));
    tell_stamp(rt, &dated);
}

// COME's layout, 36 17 64 65, as the whole call wrote it, is written as `-E`, line feed and form
// feed; that file is read back; nothing at all is a good layout and a good file.
fn good_files(rt: &HostRuntime, image: &[u8]) {
    let mut come = [0u8; 4];
    let _ = layout::emboss(
        follows(b' '),
        image,
        &[b'C', b'O', b'M', b'E'],
        sheet(8, 2),
        &mut come,
    );
    six(rt, write, &come, sheet(8, 2));
    six(rt, read, &[b'-', b'E', 10, 12], sheet(8, 2));
    six(rt, write, &[], sheet(8, 2));
    six(rt, read, &[], sheet(8, 2));
}

// Wrong files at W 8, P 2: a lower-case letter; a line that ends in a blank; a page without a line,
// the first and a later one; a form feed inside a line; text after the last form feed (place the
// length), and a file that stops short after a line; nine A (the ninth); seven A and a blank (the
// blank, which no cell can follow); a third line.
fn wrong_files(rt: &HostRuntime) {
    six(rt, read, &[b'-', b'e', 10, 12], sheet(8, 2));
    six(rt, read, &[b'-', b' ', 10, 12], sheet(8, 2));
    six(rt, read, &[12], sheet(8, 2));
    six(rt, read, &[b'-', 10, 12, 12], sheet(8, 2));
    six(rt, read, &[b'-', b'E', 12], sheet(8, 2));
    six(rt, read, &[b'-', 10, 12, b'E'], sheet(8, 2));
    six(rt, read, &[b'-', b'E', 10], sheet(8, 2));
    six(rt, read, &[65, 65, 65, 65, 65, 65, 65, 65, 65], sheet(8, 2));
    six(rt, read, &[65, 65, 65, 65, 65, 65, 65, b' '], sheet(8, 2));
    six(rt, read, &[65, 10, 10, 65, 10, 12], sheet(8, 2));
}

// Wrong layouts, by the same rules: 66; a line that ends in a blank; a page without a line; cells
// after the last 65 (place the length).
fn wrong_layouts(rt: &HostRuntime) {
    six(rt, write, &[36, 66, 64, 65], sheet(8, 2));
    six(rt, write, &[36, 0, 64, 65], sheet(8, 2));
    six(rt, write, &[65], sheet(8, 2));
    six(rt, write, &[36, 64, 65, 17], sheet(8, 2));
}

// W 7 and P 41, with a wrong file too; three bytes lent where four are needed, and four; a wrong
// file with no byte lent.
fn sizes_and_room(rt: &HostRuntime) {
    let come = [b'-', b'E', 10, 12];
    six(rt, write, &[36, 17, 64, 65], sheet(7, 2));
    six(rt, read, &[b'e'], sheet(8, 41));
    lent(rt, write, &[36, 17, 64, 65], sheet(8, 2), &mut [170; 3]);
    lent(rt, read, &come, sheet(8, 2), &mut [170; 3]);
    lent(rt, read, &come, sheet(8, 2), &mut [170; 4]);
    lent(rt, read, &[b'e'], sheet(8, 2), &mut [170; 0]);
}

fn files(rt: &HostRuntime, image: &[u8]) {
    good_files(rt, image);
    wrong_files(rt);
    wrong_layouts(rt);
    sizes_and_room(rt);
}

fn all(rt: &HostRuntime, image: &[u8]) {
    cut_words(rt, image);
    words(rt, image);
    sizes(rt, image);
    long_texts(rt, image);
    text_and_room(rt, image);
    orders(rt, image);
    sections(rt, image);
    years(rt, image);
    tell_stamp(rt, image);
    files(rt, image);
}

// A wrong byte: of a letter's class (2, at that byte), of the blank's symbol (3), of an entry's
// string, which parts two that begin alike (4).
fn main(rt: HostRuntime) {
    let rt = &rt;
    let mut image = [0u8; 32768];
    let held = console::read_table(rt, &mut image).unwrap_or(0);
    all(rt, &image[..held]);
    image[31] = 6;
    answered(rt, &image[..held], &[65], sheet(8, 2));
    image[31] = 1;
    image[0] = 33;
    answered(rt, &image[..held], &[65], sheet(8, 2));
    image[0] = 32;
    image[130] = 67;
    answered(rt, &image[..held], &[65], sheet(8, 2));
}
