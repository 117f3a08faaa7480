// Embosser files: pages as braille ASCII. Each cell becomes one character by the chart, a line ends
// in line feed, a page in form feed. What good files are and what writing and reading one means is
// said in specs/; here are the types that the definitions and the calls share. The calls themselves
// are in files.

#![tactic(auto)]

// The bytes that pages are written in: the output of `emboss`, or an embosser file.
#[derive(Clone, Copy, Debug, PartialEq, Eq)]
pub enum Kind {
    Layout,
    File,
}

// Where the judging stands: the cells of the line, whether the last of them is blank, and the lines
// that have ended on the page.
#[derive(Clone, Copy, Debug, PartialEq, Eq)]
pub struct Spot {
    pub column: usize,
    pub blank: bool,
    pub line: usize,
}
