// Where the five sections of an image lie, and its records, read where they lie. No function has to
// be asked with care: each answers for every image and every index. What each answer means is said
// in specs/, by the definitions of `table`.

#![tactic(auto)]

mod frame;
mod read;

pub use frame::{NO_SECTIONS, framed, locate};
pub use read::{offset_of, record_byte, record_part, section_at, section_named, years_of};
