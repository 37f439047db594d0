// The table of lines: what a sheet's text is made of, key by key. `places` has the rows by their numbers.
#![tactic(auto)]

pub mod table;

pub use table::{
    Absent, FIRST_PHASE, FIRST_POINT, Form, Key, NUMBERS, PHASE_KIND, POINT_KIND, ROWS, facts,
};
