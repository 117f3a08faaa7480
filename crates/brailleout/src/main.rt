// Translates standard input, with a blank following, by the table in the file `cases.tab` of the
// current folder, with W 8 and P 2, and prints the answer, the cells and the pages. Where a read
// fails it prints nothing, and where a write fails nothing more; standard error then says what
// failed, and nothing else is ever said there.

#![tactic(auto)]

use console::{Said, print_answer, print_pages, read_table, read_text};
use pages::Sheet;
use translation::Setting;

// Translates a text by a table, and prints what comes back.
fn translate(rt: &HostRuntime, image: &[u8], text: &[u8]) -> Result<(), Said> {
    let mut out = [0u8; 65536];
    let sheet = Sheet {
        width: 8,
        length: 2,
    };
    let setting = Setting {
        following: b' ',
        year: u16::MAX,
    };
    let answer = layout::emboss(setting, image, text, sheet, &mut out);
    print_answer(rt, answer)?;
    match answer {
        Ok(laid) => print_pages(rt, &out[..laid.written]),
        Err(_) => Ok(()),
    }
}

// Both are read, so that each read that fails is said. What translating comes to has been said too.
fn main(rt: HostRuntime) {
    let mut image = [0u8; 32768];
    let table = read_table(&rt, &mut image);
    let mut text = [0u8; 16385];
    let words = read_text(&rt, &mut text);
    if let (Ok(held), Ok(length)) = (table, words) {
        let _ = translate(&rt, &image[..held], &text[..length]);
    }
}
