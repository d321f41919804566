// Lists of at most so many items, in arrays of their own.
#![tactic(auto)]

mod list;

pub use list::FixedList;
