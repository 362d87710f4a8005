//! The generated script: a table of sales, a view of forecasts over it, and changes of the table.
ghost use Rattle.std.specs.Prelude.{◌≡◌, ◌++◌, ◌<◌, ◌*◌, ℕ, IfOk, OnOk, length};
ghost use Rattle.std.specs.List.{concat};
ghost use Rattle.mq_generate.specs.Draws.{next_of, state_after};
ghost use Rattle.mq_generate.specs.Script as spec;
ghost use Rattle.mq_generate.specs.Script.{changes, insert_line, inserts, line_of, row_of, script_of, show_at, statements, update_line};
ghost use Rattle.mq_generate.specs.declared.script.TheConstants.{DRAWS_A_CHANGE, YEARS};

use crate::draws::Draws;
use crate::pieces::{Piece, push_pieces};
use mq_values::Memory;
use std::alloc::Global;

/// The first year of sales.
pub const FIRST_YEAR: u64 = 2000;

/// How many years of sales there are.
pub const YEARS: u64 = 20;

/// How many amounts there are: they are the hundredths below this number.
pub const AMOUNTS: u64 = 32_768;

/// How many changes there are.
pub const CHANGES: u64 = 100;

/// How many numbers a change draws: its product, its year and its amount.
pub const DRAWS_A_CHANGE: u64 = 3;

/// After so many changes each time the view is shown.
pub const CHANGES_A_SHOW: u64 = 25;

/// How many statements there are beside those that insert a product's rows.
pub const OTHER_STATEMENTS: u64 = 106;

/// The first statement.
pub const CREATE_TABLE: &str =
    "CREATE TABLE SALES (PROD INT, YR INT, AMT DECIMAL(2), PRIMARY KEY (PROD, YR))";

/// The statement behind those that insert rows.
pub const CREATE_VIEW: &str = "CREATE VIEW F AS SELECT PROD, YR, S FROM SALES \
    MODEL PARTITION BY (PROD) DIMENSION BY (YR) MEASURES (AMT S) \
    RULES AUTOMATIC ORDER (S[FOR YR FROM 2020 TO 2024 INCREMENT 1] = (S[CV(YR)-1] + S[CV(YR)-2]) / 2, \
    S[0] = SUM(S)[YR BETWEEN 2015 AND 2024]) ORDER BY PROD, YR";

/// The statement that shows the view.
pub const SHOW: &str = "SHOW F";

/// The script that the number and the size generate. The size is how many products it has.
pub fn generated(alloc: Global, number: u32, size: u32) -> Result<Vec<u8>, Memory>
    requires { 0 < size }
    ensures { IfOk result (λ script. script.items ≡ script_of number size) }
{
    let mut draws = Draws::new(number);
    let mut script = Vec::new(alloc);
    push_statement(CREATE_TABLE, &mut script)?;
    push_inserts(size, &mut draws, &mut script)?;
    push_statement(CREATE_VIEW, &mut script)?;
    push_changes(size, &mut draws, &mut script)?;
    Ok(script)
}

/// How many statements a generated script has.
pub fn statement_count(size: u32) -> u64
    ensures { (number : ℕ) → result ≡ length (statements number size) }
{
    u64::from(size) + OTHER_STATEMENTS
}

// A statement that stands as it is.
fn push_statement(statement: &str, script: &mut Vec<u8>) -> Result<(), Memory>
    ensures { OnOk result (script.new.items ≡ script.old.items ++ line_of statement.now) }
{
    push_pieces(&[Piece::Words(statement), Piece::Words(";\n")], script)
}

// The rows of each product.
fn push_inserts(size: u32, draws: &mut Draws, script: &mut Vec<u8>) -> Result<(), Memory>
    ensures ok { OnOk result (script.new.items
        ≡ script.old.items ++ concat (inserts draws.old size)) }
    ensures state { OnOk result (draws.new ≡ state_after (YEARS * size) draws.old) }
{
    'products: for index in 0..u64::from(size) {
        push_insert(index + 1, draws, script)?;
    }
    Ok(())
}

// The rows of one product.
fn push_insert(product: u64, draws: &mut Draws, script: &mut Vec<u8>) -> Result<(), Memory>
    ensures ok { OnOk result (script.new.items
        ≡ script.old.items ++ insert_line draws.old product) }
    ensures state { OnOk result (draws.new ≡ state_after YEARS draws.old) }
{
    push_pieces(&[Piece::Words("INSERT INTO SALES VALUES")], script)?;
    'years: for index in 0..YEARS {
        push_row(product, index, draws, script)?;
    }
    push_pieces(&[Piece::Words(";\n")], script)
}

// One row, with what parts it from what stands before it.
fn push_row(product: u64, index: u64, draws: &mut Draws, script: &mut Vec<u8>) -> Result<(), Memory>
    requires { index < YEARS }
    ensures ok { OnOk result (script.new.items
        ≡ script.old.items ++ row_of draws.old product index) }
    ensures state { draws.new ≡ next_of draws.old }
{
    let sold = draws.draw(AMOUNTS);
    push_pieces(
        &[
            Piece::Words(separator(index)),
            Piece::Words("("),
            Piece::Number(product),
            Piece::Words(","),
            Piece::Number(FIRST_YEAR + index),
            Piece::Words(","),
            Piece::Amount(sold),
            Piece::Words(")"),
        ],
        script,
    )
}

fn separator(index: u64) -> &'static str
    ensures { result.now ≡ spec.separator index }
{
    if index == 0 { " " } else { "," }
}

// The changes, and the view where it is due.
fn push_changes(size: u32, draws: &mut Draws, script: &mut Vec<u8>) -> Result<(), Memory>
    requires { 0 < size }
    ensures { OnOk result (script.new.items
        ≡ script.old.items ++ concat (changes draws.old size)) }
{
    'changes: for index in 0..CHANGES {
        push_update(u64::from(size), draws, script)?;
        push_show(index + 1, script)?;
    }
    Ok(())
}

// One change.
fn push_update(size: u64, draws: &mut Draws, script: &mut Vec<u8>) -> Result<(), Memory>
    requires { 0 < size }
    ensures ok { OnOk result (script.new.items
        ≡ script.old.items ++ update_line draws.old size) }
    ensures state { draws.new ≡ state_after DRAWS_A_CHANGE draws.old }
{
    let product = 1 + draws.draw(size);
    let year = FIRST_YEAR + draws.draw(YEARS);
    let amount = draws.draw(AMOUNTS);
    push_pieces(
        &[
            Piece::Words("UPDATE SALES SET AMT = "),
            Piece::Amount(amount),
            Piece::Words(" WHERE PROD = "),
            Piece::Number(product),
            Piece::Words(" AND YR = "),
            Piece::Number(year),
            Piece::Words(";\n"),
        ],
        script,
    )
}

// The view, where it is due after so many changes.
fn push_show(changes: u64, script: &mut Vec<u8>) -> Result<(), Memory>
    ensures { OnOk result (script.new.items
        ≡ script.old.items ++ concat (show_at changes)) }
{
    if changes % CHANGES_A_SHOW == 0 {
        push_statement(SHOW, script)
    } else {
        Ok(())
    }
}
