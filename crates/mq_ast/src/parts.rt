//! The parts at which the grammar cuts its long productions, where a part is more than one value
//! (docs/LANGUAGE.md, "Queries", "The MODEL clause"). A reader gives them one by one; the trees are made of them.

use crate::expressions::{E, Path};
use crate::queries::{FromItem, Opt, RefTree, RuleTree, Sel};
use mq_values::{Items, Mode, Num, Words};

/// What a query shows: all columns, or these.
#[derive(Drop)]
pub struct Shown {
    pub star: bool,
    pub sels: Items<Sel>,
}

/// Which rows a query takes, and their groups.
#[derive(Drop)]
pub struct Source {
    pub froms: Items<FromItem>,
    pub filter: Option<E>,
    pub group: Items<Path>,
}

/// The values that a FOR goes through from a first to a last one.
#[derive(Drop)]
pub struct Range {
    pub start: E,
    pub finish: E,
    pub down: bool,
    pub step: E,
}

/// What stands before the rules: the mode, whether their order is AUTOMATIC, ITERATE and UNTIL.
#[derive(Drop)]
pub struct Head {
    pub mode: Option<Mode>,
    pub auto: bool,
    pub iterate: Option<Num>,
    pub until: Option<E>,
}

/// The options of a MODEL clause, whether RETURN UPDATED stands there, and its references.
#[derive(Drop)]
pub struct Front {
    pub opts: Items<Opt>,
    pub updated: bool,
    pub refs: Items<RefTree>,
}

/// The name behind MAIN, the columns of PARTITION BY, and those of DIMENSION BY and MEASURES.
#[derive(Drop)]
pub struct Body {
    pub main: Option<Words>,
    pub parts: Items<Sel>,
    pub axes: (Items<Sel>, Items<Sel>),
}

/// The options behind MEASURES, and the rules with what stands before them.
#[derive(Drop)]
pub struct Tail {
    pub opts: Items<Opt>,
    pub head: Head,
    pub rules: Items<RuleTree>,
}
