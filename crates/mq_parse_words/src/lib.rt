//! What a token is for the grammar, and the trees that are put together of what was read.
//! Tokens and a place go in. Out come names, paths, kinds, numbers, texts and dates with the place behind them, or SYNTAX; and
//! trees in the grammar's words. Each reader gives what the grammar of mq_ast's `specs/` says, in the words of `specs/Reading.antt`.
#![tactic(auto)]

mod calls;
mod forms;
mod names;
mod spelling;
mod terminals;
mod trees;

pub use forms::{AggHead, Form, IsTest, Tail, form_of, tail_of};
pub use names::{
    name_at, number_at, read_day, read_int, read_kind, read_name, read_path, read_text, scale_of,
    text_at,
};
pub use terminals::{
    behind_sign, behind_word, looseness, pass_sign, pass_word, settled, sign_at, stops, terminal,
    terminal_of, token_at,
};
pub use trees::{
    Tree, aggregate, all_of, any_of, any_place, between, called, case, cast, cell, column,
    comparison, counted, in_list, judged, named, negation, number, place_of, product, put, put_arm,
    put_before, put_prod, put_sum, range, rounded, signed, sum,
};
