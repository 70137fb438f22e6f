// What a call answers, and the tests that calls share.
#![tactic(auto)]

mod admission; // 1, 2: depth, lengths; then the tests of a record and a table
mod base; // 5: the number of a base symbol
mod lengths; // 2: the lengths of a tree and its marks
mod marks; // 4: the marks of a tree
mod numbering; // an answer as numbers
mod records; // 11, 12: a record, and the table that it names
mod table; // 3, 10: a table

pub use admission::{admit, admit_by, check_table, enter, enter_by, stops_at_depth};
pub use base::test_number;
pub use lengths::tree_fits;
pub use marks::test_marks;
pub use numbering::numbers_of;
pub use table::check_words;

// Why a call stopped: 01, "What stops a call", and 02. A stop has at most two values.
#[derive(Clone, Copy, Debug, PartialEq, Eq)]
pub enum Stop {
    // the depth is not 1 to the largest
    Depth,
    // a buffer's length is wrong
    Length,
    // the table breaks a rule: the first wrong word, or the number of words where it is short
    Table(usize),
    // a mark neither 0 nor 1: the lowest place
    Mark(usize),
    // the base has no symbol of this number
    Number,
    // a proof's head: wrong kind, layer, equation, or no member
    Head,
    // a hash doesn't lead to the root: the first such layer, going up from the base symbol of a sample, or from the first such member of
    // a proof, whose position comes second; of a sample that is 0
    Hash { layer: usize, position: usize },
    // a proof whose withheld hash fits: no fault shown
    NoFault,
    // a needed symbol is absent: the index in the sample of the first, or its base number
    Absent(usize),
    // a data symbol is a member of fewer than two equations of its layer: the first such layer, and its lowest such symbol
    Uncovered { layer: usize, symbol: usize },
    // a record's head: wrong kind, a block's length over 256·k, or another depth than the call's; or no kind has the number that the writer is told
    Record,
    // a table of another word count or hash than the record's
    OtherTable,
    // a tree to be recoded that a repair doesn't call whole without storing anything
    NotWhole,
}

// The number of an answer and the values that go with it, 0 where there is none.
#[derive(Clone, Copy, Debug, PartialEq, Eq)]
pub struct Numbers {
    pub number: usize,
    pub first: usize,
    pub second: usize,
}
