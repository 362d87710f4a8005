//! A MODEL clause (docs/LANGUAGE.md, "The order of binding").

ghost use Rattle.std.specs.Prelude.{◌≡◌, ◌++◌, ◌||◌, length, map, false, is_some, IfOk, OnOk};
ghost use Rattle.mq_values.specs.Answers.{Gives};
ghost use Rattle.mq_binder.specs.declared.found.ReferenceFound.{ReferenceFound as ReferenceOf};
ghost use Rattle.mq_binder.specs.FromWalk as rows;
ghost use Rattle.mq_binder.specs.ListWalk as listed;
ghost use Rattle.mq_bind_scopes.specs.Options as options;
ghost use Rattle.mq_binder.specs.ModelWalk as spec;
ghost use Rattle.mq_binder.specs.PlainWalk as plain;

use crate::found::{ListItem, Lists, ModelFound, ReferenceFound};
use crate::lists::{
    items_listed, limited, list_columns, list_exprs, list_kinds, list_names, push_names,
    same_column,
};
use crate::plain::any_aggregate;
use crate::references::references_bound;
use crate::rules::rules_bound;
use crate::sources::group_of;
use mq_ast::{ModelTree, Sel};
use mq_bind_expr::{bound_filter, unboxed};
use mq_bind_scopes::{
    MISUSE_OF_OPTIONS, ModelNames, Named, Part, ReferenceNames, Scope, head_bound, ignores_nav,
    misuse, number, options_clash, standing,
};
use mq_ir::{
    Catalog, ColRef, Expr, Iterate, LIMIT_OF_DIMENSIONS, LIMIT_OF_MEASURES,
    LIMIT_OF_PARTITION_COLUMNS, ModelPart, PlainPart, RefPart, Rule,
};
use mq_values::{
    Boxed, Fail, Items, Kind, MAX_DIMENSIONS, MAX_MEASURES, MAX_PARTITION_COLUMNS, Memory, Mode,
    Refused, Words,
};
use std::alloc::Global;

// The items of a list of the model, with the limit of its length.
fn items_limited(
    alloc: Global,
    scope: &Scope,
    taken: &[Words],
    sels: &[Sel],
    most: usize,
    number: u32,
) -> Result<Items<ListItem>, Fail<Refused>>
    ensures { Gives result (spec.items_limited scope.now most number taken.now sels.now) }
{
    let items = items_listed(alloc, scope, standing(Part::Item), taken, sels)?;
    limited(most, number, items)
}

// The dimensions have other names than the partition columns.
fn dims_bound(
    alloc: Global,
    scope: &Scope,
    m: &ModelTree,
    parts: &[ListItem],
) -> Result<Items<ListItem>, Fail<Refused>>
    ensures { Gives result (spec.items_limited scope.now MAX_DIMENSIONS LIMIT_OF_DIMENSIONS (listed.list_names parts.now) m.now.dims) }
{
    let taken = list_names(alloc, parts)?;
    items_limited(
        alloc,
        scope,
        taken.as_slice(),
        m.dims.as_slice(),
        MAX_DIMENSIONS,
        LIMIT_OF_DIMENSIONS,
    )
}

// The measures have other names than both.
fn measures_bound(
    alloc: Global,
    scope: &Scope,
    m: &ModelTree,
    parts: &[ListItem],
    dims: &[ListItem],
) -> Result<Items<ListItem>, Fail<Refused>>
    ensures { Gives result (spec.items_limited scope.now MAX_MEASURES LIMIT_OF_MEASURES (listed.list_names parts.now ++ listed.list_names dims.now) m.now.measures) }
{
    let mut taken = list_names(alloc, parts)?;
    push_names(&mut taken, dims)?;
    items_limited(
        alloc,
        scope,
        taken.as_slice(),
        m.measures.as_slice(),
        MAX_MEASURES,
        LIMIT_OF_MEASURES,
    )
}

fn lists_bound(alloc: Global, scope: &Scope, m: &ModelTree) -> Result<Lists, Fail<Refused>>
    ensures { Gives result (spec.lists_bound scope.now m.now) }
{
    let parts = items_limited(
        alloc,
        scope,
        &[],
        m.parts.as_slice(),
        MAX_PARTITION_COLUMNS,
        LIMIT_OF_PARTITION_COLUMNS,
    )?;
    let dims = dims_bound(alloc, scope, m, parts.as_slice())?;
    let measures = measures_bound(alloc, scope, m, parts.as_slice(), dims.as_slice())?;
    Ok(Lists {
        parts,
        dims,
        measures,
    })
}

fn push_all(items: &mut Items<ListItem>, more: Items<ListItem>) -> Result<(), Memory>
    ensures { OnOk result (items.new ≡ items.old ++ more) }
{
    'more: for item in more.into_vec() {
        items.push(item)?;
    }
    Ok(())
}

fn all_items(lists: Lists) -> Result<Items<ListItem>, Memory>
    ensures { IfOk result (λ items. items ≡ spec.all_items lists) }
{
    let mut items = lists.parts;
    push_all(&mut items, lists.dims)?;
    push_all(&mut items, lists.measures)?;
    Ok(items)
}

fn same_columns(alloc: Global, columns: &[Named]) -> Result<Items<Named>, Memory>
    ensures { IfOk result (λ copies. copies ≡ columns.now) }
{
    let mut copies = Items::new(alloc);
    'columns: for c in columns {
        copies.push(same_column(c)?)?;
    }
    Ok(copies)
}

fn same_reference(alloc: Global, names: &ReferenceNames) -> Result<ReferenceNames, Memory>
    ensures { IfOk result (λ copy. copy ≡ names.now) }
{
    let dims = same_columns(alloc, names.dims.as_slice())?;
    let measures = same_columns(alloc, names.measures.as_slice())?;
    Ok(ReferenceNames {
        name: names.name.copy()?,
        dims,
        measures,
    })
}

fn reference_names(alloc: Global, refs: &[ReferenceFound]) -> Result<Items<ReferenceNames>, Memory>
    ensures { IfOk result (λ names. names ≡ map (λ (r : ReferenceOf). r.names) refs.now) }
{
    let mut names = Items::new(alloc);
    'refs: for r in refs {
        names.push(same_reference(alloc, &r.names)?)?;
    }
    Ok(names)
}

fn model_names(
    alloc: Global,
    refs: &[ReferenceFound],
    lists: &Lists,
    iterates: bool,
) -> Result<ModelNames, Memory>
    ensures { IfOk result (λ names. names ≡ record {
      dims = listed.list_columns lists.now.dims;
      measures = listed.list_columns lists.now.measures;
      refs = map (λ (r : ReferenceOf). r.names) refs.now;
      iterates = iterates;
    }) }
{
    let dims = list_columns(alloc, lists.dims.as_slice())?;
    let measures = list_columns(alloc, lists.measures.as_slice())?;
    let refs = reference_names(alloc, refs)?;
    Ok(ModelNames {
        dims,
        measures,
        refs,
        iterates,
    })
}

// What rules and UNTIL may name.
fn rule_scope(
    alloc: Global,
    refs: &[ReferenceFound],
    lists: &Lists,
    iterates: bool,
) -> Result<Scope, Memory>
    ensures { IfOk result (λ scope. scope ≡ spec.rule_scope refs.now lists.now iterates) }
{
    let model = model_names(alloc, refs, lists, iterates)?;
    Ok(Scope {
        aliases: Items::new(alloc),
        columns: Items::new(alloc),
        group: None,
        shown: Items::new(alloc),
        model,
    })
}

// The kinds of a model's columns, the names of its measures, and its references.
#[derive(Drop)]
struct ModelKinds {
    parts: u32,
    part_kinds: Items<Kind>,
    dims: Items<Kind>,
    measures: Items<Kind>,
    names: Items<Words>,
    refs: Items<RefPart>,
}

fn reference_parts(alloc: Global, refs: Items<ReferenceFound>) -> Result<Items<RefPart>, Memory>
    ensures { IfOk result (λ parts. parts ≡ map (λ (r : ReferenceOf). r.part) refs) }
{
    let mut parts = Items::new(alloc);
    'refs: for r in refs.into_vec() {
        parts.push(r.part)?;
    }
    Ok(parts)
}

fn model_kinds(
    alloc: Global,
    refs: Items<ReferenceFound>,
    lists: &Lists,
) -> Result<ModelKinds, Memory>
    ensures { IfOk result (λ kinds. kinds ≡ record {
      parts = length lists.now.parts;
      part_kinds = listed.list_kinds lists.now.parts;
      dims = listed.list_kinds lists.now.dims;
      measures = listed.list_kinds lists.now.measures;
      names = listed.list_names lists.now.measures;
      refs = map (λ (r : ReferenceOf). r.part) refs;
    }) }
{
    let parts = number(lists.parts.len())?;
    let part_kinds = list_kinds(alloc, lists.parts.as_slice())?;
    let dims = list_kinds(alloc, lists.dims.as_slice())?;
    let measures = list_kinds(alloc, lists.measures.as_slice())?;
    let names = list_names(alloc, lists.measures.as_slice())?;
    let refs = reference_parts(alloc, refs)?;
    Ok(ModelKinds {
        parts,
        part_kinds,
        dims,
        measures,
        names,
        refs,
    })
}

fn nav_ignored(m: &ModelTree) -> bool
    ensures { result ≡ options.ignores_nav m.now.main_opts (options.ignores_nav m.now.opts false) }
{
    ignores_nav(
        m.main_opts.as_slice(),
        ignores_nav(m.opts.as_slice(), false),
    )
}

fn model_part(
    m: &ModelTree,
    kinds: ModelKinds,
    iterate: Option<Iterate>,
    found: (Items<Rule>, Items<PlainPart>),
) -> ModelPart
    ensures { result ≡ record {
      parts = kinds.parts;
      part_kinds = kinds.part_kinds;
      dims = kinds.dims;
      measures = kinds.measures;
      names = kinds.names;
      ignore_nav = options.ignores_nav m.now.main_opts (options.ignores_nav m.now.opts false);
      updated_only = m.now.updated_only;
      auto = m.now.auto;
      iterate = iterate;
      rules = found.0;
      refs = kinds.refs;
      lists = found.1;
    } }
{
    ModelPart {
        parts: kinds.parts,
        part_kinds: kinds.part_kinds,
        dims: kinds.dims,
        measures: kinds.measures,
        names: kinds.names,
        ignore_nav: nav_ignored(m),
        updated_only: m.updated_only,
        auto: m.auto,
        iterate,
        rules: found.0,
        refs: kinds.refs,
        lists: found.1,
    }
}

// UNTIL stands behind ITERATE.
fn iterate_of(turns: Option<u32>, until: Option<Boxed<Expr>>) -> Option<Iterate>
    ensures { result ≡ spec.iterate_of turns until }
{
    match turns {
        Some(turns) => Some(Iterate {
            turns,
            until: unboxed(until),
        }),
        None => None,
    }
}

fn rules_over(
    alloc: Global,
    catalog: &Catalog,
    m: &ModelTree,
    refs: Items<ReferenceFound>,
    lists: &Lists,
    turns: Option<u32>,
    scope: &Scope,
) -> Result<Boxed<ModelPart>, Fail<Refused>>
    ensures { Gives result (spec.rules_over catalog.now m.now refs lists.now turns scope.now) }
{
    let kinds = model_kinds(alloc, refs, lists)?;
    let mode = m.mode.unwrap_or(Mode::Upsert);
    let found = rules_bound(alloc, catalog, scope, mode, m.auto, m.rules.as_slice())?;
    let until = bound_filter(alloc, scope, standing(Part::Until), &m.until)?;
    Ok(Boxed::new(alloc, model_part(m, kinds, iterate_of(turns, until), found))?)
}

// The rules and UNTIL, over what they may name.
fn rules_within(
    alloc: Global,
    catalog: &Catalog,
    m: &ModelTree,
    refs: Items<ReferenceFound>,
    lists: &Lists,
    turns: Option<u32>,
) -> Result<Boxed<ModelPart>, Fail<Refused>>
    ensures { Gives result (spec.rules_over catalog.now m.now refs lists.now turns (spec.rule_scope refs lists.now (is_some turns))) }
{
    let inside = rule_scope(alloc, refs.as_slice(), lists, turns.is_some())?;
    rules_over(alloc, catalog, m, refs, lists, turns, &inside)
}

fn same_group(alloc: Global, group: &Option<Items<ColRef>>) -> Result<Option<Items<ColRef>>, Memory>
    ensures { IfOk result (λ copy. copy ≡ group.now) }
{
    match group {
        Some(cols) => Ok(Some(same_cols(alloc, cols.as_slice())?)),
        None => Ok(None),
    }
}

fn same_cols(alloc: Global, cols: &[ColRef]) -> Result<Items<ColRef>, Memory>
    ensures { IfOk result (λ copies. copies ≡ cols.now) }
{
    let mut copies = Items::new(alloc);
    'cols: for c in cols {
        copies.push(*c)?;
    }
    Ok(copies)
}

fn model_found(
    alloc: Global,
    scope: &Scope,
    part: Boxed<ModelPart>,
    lists: Lists,
) -> Result<ModelFound, Memory>
    ensures { IfOk result (λ found. found ≡ record {
      part = part;
      items = listed.list_exprs (spec.all_items lists);
      columns = listed.list_columns (spec.all_items lists);
      group = scope.now.group;
    }) }
{
    let items = all_items(lists)?;
    let columns = list_columns(alloc, items.as_slice())?;
    let items = list_exprs(alloc, items)?;
    let group = same_group(alloc, &scope.group)?;
    Ok(ModelFound {
        part: part.into_inner(),
        items,
        columns,
        group,
    })
}

fn lists_and_rules(
    alloc: Global,
    catalog: &Catalog,
    scope: &Scope,
    m: &ModelTree,
    refs: Items<ReferenceFound>,
) -> Result<ModelFound, Fail<Refused>>
    ensures { Gives result (spec.lists_and_rules catalog.now scope.now.group scope.now m.now refs) }
{
    let lists = lists_bound(alloc, scope, m)?;
    let turns = head_bound(m)?;
    let part = rules_within(alloc, catalog, m, refs, &lists, turns)?;
    Ok(model_found(alloc, scope, part, lists)?)
}

/// The columns of GROUP BY, where the items of the model have an aggregate or GROUP BY stands there.
pub fn model_group(m: &ModelTree, cols: Items<ColRef>) -> Option<Items<ColRef>>
    ensures { result ≡ rows.group_of cols (plain.any_aggregate m.now.parts || plain.any_aggregate m.now.dims || plain.any_aggregate m.now.measures) }
{
    let has_aggregate = any_aggregate(m.parts.as_slice())
        || any_aggregate(m.dims.as_slice())
        || any_aggregate(m.measures.as_slice());
    group_of(cols, has_aggregate)
}

/// A model over rows of this scope, grouped already.
pub fn model_over(
    alloc: Global,
    catalog: &Catalog,
    scope: &Scope,
    m: &ModelTree,
) -> Result<ModelFound, Fail<Refused>>
    ensures { Gives result (spec.model_over catalog.now scope.now m.now) }
{
    if options_clash(m.opts.as_slice()) {
        return Err(misuse(MISUSE_OF_OPTIONS));
    }
    let around = ignores_nav(m.opts.as_slice(), false);
    let refs = references_bound(alloc, catalog, around, m.refs.as_slice())?;
    lists_and_rules(alloc, catalog, scope, m, refs)
}
