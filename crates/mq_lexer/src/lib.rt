//! From the text of a script to its tokens, each lent by the text, with the line that it stands on.
//! What goes in is any text. What comes out is the list of its tokens, and the statements as parts of that list.
//! `specs/Tokens.antt` defines the tokens of a text, and `specs/Statements.antt` its statements.
#![tactic(auto)]

mod classes;
mod keywords;
mod laws;
mod numbers;
mod pieces;
mod scanner;
mod script;
mod sorts;
mod terminals;
mod words;

pub use keywords::{Keyword, RESERVED, reserved_word};
pub use laws::{
    gaps_are_blanks_and_comments, lines_are_counted_by_lf, pieces_give_the_text_back,
    readable_tokens_hold_no_blank, statements_hold_the_tokens, tokens_are_of_their_class,
    tokens_are_spelled, tokens_are_the_longest,
};
pub use numbers::{is_number, read_number};
pub use scanner::{Rest, next_part, tokens};
pub use script::{Statement, as_statement, next_statement, statements};
pub use sorts::{Sort, Token};
pub use terminals::{Symbol, Terminal};
pub use words::{folded, is_name, is_reserved, is_sign, is_word};
