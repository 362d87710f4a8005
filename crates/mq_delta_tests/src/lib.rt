//! Tests of changes and nothing else: `cells` has a partition's cells, propagated after its input changed (mq_delta_cells),
//! `rows` the kept base rows of a query after a change of a table (mq_delta_base), `scenarios` a view under changes that are only
//! tried (mq_engine).
#![tactic(auto)]

#[cfg(test)]
mod cells;
#[cfg(test)]
mod makers;
#[cfg(test)]
mod ready;
#[cfg(test)]
mod rows;
#[cfg(test)]
mod scenarios;
