// The chart, and the tables of 256 bytes that a call makes before its loops: from the bytes of one
// kind to what they stand for, or to the bytes of the other.

ghost use Rattle.std.specs.Prelude.{◌≡◌, ℕ, ◌<◌, ◌≤◌, slice_index};
ghost use Rattle.embosser.specs.Chart.{character_of, written_as, stands_for, turned};
ghost use Rattle.embosser.specs.inside.Tables.{Holds};
ghost use Rattle.embosser.specs.declared.Kind.TheVariants.{Layout};

use embosser::Kind;

// The public North American braille ASCII chart: the character of each cell.
const CHART: [u8; 64] = *b" A1B'K2L@CIF/MSP\"E3H9O6R^DJG>NTQ,*5<-U8V.%[$+X!&;:4\\0Z7(_?W]#Y)=";

// The character of an output byte: of a cell by the chart, a line feed for 64, a form feed for 65.
#[tactic(auto, unfolding(embosser::specs::Chart::character_of, embosser::specs::Chart::characters))]
fn character(byte: u8) -> u8
    requires { byte < 66 }
    ensures { result ≡ character_of byte }
{
    match byte {
        64 => b'\n',
        65 => b'\x0c',
        _ => CHART[usize::from(byte)],
    }
}

// An output byte as a byte of this kind.
fn written_as(kind: Kind, byte: u8) -> u8
    requires { byte < 66 }
    ensures { result ≡ written_as kind byte }
{
    match kind {
        Kind::Layout => byte,
        Kind::File => character(byte),
    }
}

// From the bytes of one kind to those of another, and to `nothing` where a byte stands for none.
fn table_between(kind: Kind, to: Kind, nothing: u8) -> [u8; 256]
    ensures standing { (b : ℕ) → b < 256 → stands_for kind b < 66 → slice_index result b ≡ written_as to (stands_for kind b) }
    ensures others { (b : ℕ) → b < 256 → 66 ≤ stands_for kind b → slice_index result b ≡ nothing }
{
    let mut table = [nothing; 256];
    for byte in 0..66 {
        let c = written_as(kind, byte);
        table[usize::from(c)] = written_as(to, byte);
    }
    table
}

// From each byte to itself.
fn unchanged() -> [u8; 256]
    ensures { Holds (stands_for Layout) result }
{
    let mut table = [0; 256];
    // Kept: `as`, proved to lose nothing, since `try_from` would have an error that never comes.
    for i in 0..256 {
        table[i] = i as u8;
    }
    table
}

// The output byte that each byte of this kind stands for, and more than 65 where it stands for none:
// for a file, the byte that it is turned to.
pub(crate) fn stands_for(kind: Kind) -> [u8; 256]
    ensures { Holds (stands_for kind) result }
{
    match kind {
        Kind::Layout => unchanged(),
        Kind::File => turned_by(Kind::File),
    }
}

// The byte of the other kind, for each byte of this one.
pub(crate) fn turned_by(kind: Kind) -> [u8; 256]
    ensures { Holds (turned kind) result }
{
    match kind {
        Kind::Layout => table_between(Kind::Layout, Kind::File, 0),
        Kind::File => table_between(Kind::File, Kind::Layout, 66),
    }
}
