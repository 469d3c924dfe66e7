// What the texts of a build are cut by: blanks, letters and digits of ASCII, the names and numbers that are made of them, and the pieces
// between blanks. Other characters are none of these, and are passed over whole.
//
// It knows no rule of any one instruction: what a name or a number is good for is said by the crates that use it. Letters without
// their case are compared by std's `eq_ignore_ascii_case`, and contracts say that by std's `str_eq_ignore_ascii_case`.
//
// ```
// is_name(b"EOF_1")                                // true
// parse_number("0644")                             // Some(644)
// first_piece("  COPY\t --link  a b")              // ("COPY", "--link  a b")
// split_at_blanks(alloc, " a \t bc ")?             // ["a", "bc"]
// ```
#![tactic(auto)]

mod blanks;
mod names;
mod numbers;
mod pieces;

pub use blanks::{after_blanks, before_blanks, is_blank, trimmed};
pub use names::{begins_name, is_digit, is_in_name, is_letter, is_name};
pub use numbers::{are_digits, parse_number};
pub use pieces::{first_piece, split_at_blanks};
