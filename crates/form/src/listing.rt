// The word that begins a line, which fields the line has after it, and the bytes that each, and all,
// have in the image.

ghost use Rattle.std.specs.Prelude.{◌≡◌, length, get_or};
ghost use Rattle.form.specs.Fields.{spelled, fields_of, size_of, sizes_of};
ghost use Rattle.form.specs.declared.Field.TheVariants.{Symbol};

use crate::{Draft, Field, Keyword};

impl Keyword {
    // The word itself.
    pub fn word(self) -> &'static [u8]
        ensures { result.now ≡ spelled self }
    {
        match self {
            Keyword::Dated => b"dated",
            Keyword::Classes => b"classes",
            Keyword::Variables => b"variables",
            Keyword::Letter => b"letter",
            Keyword::Entry => b"entry",
            Keyword::Context => b"context",
            Keyword::Transition => b"transition",
            Keyword::Decision => b"decision",
        }
    }
}

// How many fields a line has.
#[tactic(auto, unfolding(crate::specs::Fields::fields_of))]
pub fn field_count(draft: Draft, keyword: Keyword) -> usize
    ensures { result ≡ length (fields_of draft keyword) }
{
    match keyword {
        Keyword::Dated => 0,
        Keyword::Classes | Keyword::Variables | Keyword::Transition => 1,
        Keyword::Letter => 3,
        Keyword::Entry | Keyword::Context => 4,
        Keyword::Decision => { if draft.variables == 0 { 1 } else { 2 } }
    }
}

// The field of that number, counted from 0, and a symbol where there is none.
#[tactic(auto, unfolding(crate::specs::Fields::fields_of))]
pub fn field_at(draft: Draft, keyword: Keyword, j: usize) -> Field
    ensures { result ≡ get_or (fields_of draft keyword) j Symbol }
{
    match (keyword, j) {
        (Keyword::Classes, 0) => Field::Number(1, 40),
        (Keyword::Variables, 0) => Field::Number(0, 15),
        (Keyword::Letter, 1 | 2) => Field::Number(0, 255),
        (Keyword::Entry, 0) => Field::String,
        (Keyword::Entry, 1) => Field::Classed,
        (Keyword::Entry, 2) => Field::Shift,
        (Keyword::Entry, 3) => Field::Tail(draft.dated),
        (Keyword::Context, 0..=3) => Field::Number(0, 255),
        (Keyword::Transition, 0) => Field::Row(draft.classes),
        (Keyword::Decision, 0) => Field::Row(draft.classes),
        (Keyword::Decision, 1) if draft.variables != 0 => Field::Row(draft.variables),
        _ => Field::Symbol,
    }
}

// The bytes of a field in the image.
pub fn size_of(field: Field) -> usize
    ensures { result ≡ size_of field }
{
    match field {
        Field::Number(..) | Field::Symbol => 1,
        Field::Row(n) => usize::from(n),
        Field::String => 11,
        Field::Classed => 2,
        Field::Shift => 1,
        Field::Tail(dated) => { if dated { 8 } else { 4 } }
    }
}

// The bytes of a record.
#[tactic(auto, unfolding(crate::specs::Fields::fields_of, crate::specs::Fields::sizes_of))]
pub fn record_size(draft: Draft, keyword: Keyword) -> usize
    ensures { result ≡ sizes_of (fields_of draft keyword) }
{
    match keyword {
        Keyword::Dated => 0,
        Keyword::Classes | Keyword::Variables => 1,
        Keyword::Letter => 3,
        Keyword::Entry => { if draft.dated { 22 } else { 18 } }
        Keyword::Context => 4,
        Keyword::Transition => usize::from(draft.classes),
        Keyword::Decision => usize::from(draft.classes) + usize::from(draft.variables),
    }
}
