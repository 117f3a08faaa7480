// The two forms of a table, and what moving it from one to the other means: definitions in specs/,
// and their laws. The movers themselves are in movers.

#![tactic(auto)]

// The form of a table: without years on its entries, or with them.
#[derive(Clone, Copy, Debug, PartialEq, Eq)]
pub enum Form {
    Undated,
    Dated,
}
