//! Binds the names of a statement: a tree and the catalog go in, and the bound form comes out, or the first offence of the walk.
//! What is visited in which order, and what each node may offend against, is defined in specs/ (StatementWalk and what it stands on).
//! A tree without offence has one bound form.
#![tactic(auto)]

mod bases;
mod cells;
mod change_trees;
mod changes;
mod fits;
mod for_lists;
mod found;
mod laws;
mod left_sides;
mod lists;
mod models;
mod plain;
mod queries;
mod references;
mod rules;
mod scenarios;
mod sources;
mod statements;
mod tables;

pub use fits::{
    bases_fit, measures_are_named, plain_queries_fit, queries_fit, row_expressions_fit,
    schemas_fit, statements_fit,
};
pub use found::{
    Base, LeftFound, LeftItemFound, ListFound, ListItem, Lists, ModelFound, PlainFound,
    ReferenceFound, RulesFound, Sources,
};
pub use laws::{
    aliases_hide_names, answers_are_one, kinds_are_of_trees, names_are_compared_in_capitals,
};
pub use statements::bind;
