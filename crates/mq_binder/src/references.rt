//! The references of a model (docs/LANGUAGE.md, "The order of binding").

ghost use Rattle.std.specs.Prelude.{◌≡◌, ◌++◌, [], IfOk, OnOk};
ghost use Rattle.std.specs.List.{enumerate_from, flat_map};
ghost use Rattle.mq_lexer.specs.Words as words;
ghost use Rattle.mq_values.specs.Answers.{Gives};
ghost use Rattle.mq_binder.specs.ListWalk as lists;
ghost use Rattle.mq_binder.specs.ReferenceWalk as spec;
ghost use Rattle.mq_bind_expr.specs.Steps.{each_behind};

use crate::found::{ListItem, PlainFound, ReferenceFound};
use crate::lists::{items_listed, limited, list_columns, list_exprs, list_names, push_kinds};
use crate::plain::held_plain;
use crate::sources::row_scope;
use crate::tables::has_name;
use mq_ast::RefTree;
use mq_bind_expr::held;
use mq_bind_scopes::{
    MISUSE_OF_OPTIONS, Part, Printed, ReferenceNames, RowColumn, Scope, duplicate_name,
    ignores_nav, misuse, number, options_clash, standing,
};
use mq_ir::{
    Catalog, ColRef, Expr, LIMIT_OF_DIMENSIONS, LIMIT_OF_MEASURES, LIMIT_OF_REFERENCES, RefPart,
};
use mq_lexer::folded;
use mq_values::{
    Boxed, Fail, Items, Kind, MAX_DIMENSIONS, MAX_MEASURES, MAX_REFERENCES, Memory, Refused, Words,
};
use std::alloc::Global;

// A printed column that has a name is one that lists may name.
fn push_printed(columns: &mut Items<RowColumn>, n: u32, p: &Printed) -> Result<(), Memory>
    ensures { OnOk result (columns.new ≡ columns.old ++ spec.printed_column n p.now) }
{
    match &p.name {
        Some(name) => {
            columns.push(RowColumn {
                name: name.copy()?,
                kind: p.kind,
                at: ColRef { item: 0, column: n },
            })?;
            Ok(())
        }
        None => Ok(()),
    }
}

fn printed_columns(alloc: Global, printed: &[Printed]) -> Result<Items<RowColumn>, Memory>
    ensures { IfOk result (λ columns. columns ≡ flat_map (λ p. spec.printed_column p.0 p.1) (enumerate_from 0 printed.now)) }
{
    let mut columns = Items::new(alloc);
    'printed: for (n, p) in printed.iter().enumerate() {
        push_printed(&mut columns, number(n)?, p)?;
    }
    Ok(columns)
}

// The lists of a reference name the printed columns of its query.
fn printed_scope(alloc: Global, printed: &[Printed]) -> Result<Scope, Memory>
    ensures { IfOk result (λ scope. scope ≡ spec.printed_scope printed.now) }
{
    let columns = printed_columns(alloc, printed)?;
    Ok(row_scope(alloc, Items::new(alloc), columns))
}

fn dims_listed(alloc: Global, r: &RefTree, scope: &Scope) -> Result<Items<ListItem>, Fail<Refused>>
    ensures { Gives result (spec.dims_listed r.now scope.now) }
{
    let dims = items_listed(alloc, scope, standing(Part::Row), &[], r.dims.as_slice())?;
    limited(MAX_DIMENSIONS, LIMIT_OF_DIMENSIONS, dims)
}

// The measures have other names than the dimensions.
fn measures_listed(
    alloc: Global,
    r: &RefTree,
    dims: &[ListItem],
    scope: &Scope,
) -> Result<Items<ListItem>, Fail<Refused>>
    ensures { Gives result (spec.measures_listed r.now dims.now scope.now) }
{
    let names = list_names(alloc, dims)?;
    let measures = items_listed(
        alloc,
        scope,
        standing(Part::Row),
        names.as_slice(),
        r.measures.as_slice(),
    )?;
    limited(MAX_MEASURES, LIMIT_OF_MEASURES, measures)
}

fn kinds_of(alloc: Global, dims: &[ListItem], measures: &[ListItem]) -> Result<Items<Kind>, Memory>
    ensures { IfOk result (λ kinds. kinds ≡ lists.list_kinds dims.now ++ lists.list_kinds measures.now) }
{
    let mut kinds = Items::new(alloc);
    push_kinds(&mut kinds, dims)?;
    push_kinds(&mut kinds, measures)?;
    Ok(kinds)
}

fn names_of(
    alloc: Global,
    name: &Words,
    dims: &[ListItem],
    measures: &[ListItem],
) -> Result<ReferenceNames, Memory>
    ensures { IfOk result (λ names. names ≡ record { name = words.folded name.now; dims = lists.list_columns dims.now; measures = lists.list_columns measures.now }) }
{
    let name = folded(alloc, name.as_str())?;
    let dims = list_columns(alloc, dims)?;
    let measures = list_columns(alloc, measures)?;
    Ok(ReferenceNames {
        name,
        dims,
        measures,
    })
}

fn parts_of(
    alloc: Global,
    dims: Items<ListItem>,
    measures: Items<ListItem>,
) -> Result<(Items<Expr>, Items<Expr>), Memory>
    ensures { IfOk result (λ parts. parts ≡ (lists.list_exprs dims, lists.list_exprs measures)) }
{
    let dims = list_exprs(alloc, dims)?;
    let measures = list_exprs(alloc, measures)?;
    Ok((dims, measures))
}

fn reference_with(
    source: Boxed<PlainFound>,
    parts: (Items<Expr>, Items<Expr>),
    kinds: Items<Kind>,
    ignore_nav: bool,
    names: ReferenceNames,
) -> ReferenceFound
    ensures { result ≡ record { part = record { source = source.part; dims = parts.0; measures = parts.1; kinds = kinds; ignore_nav = ignore_nav }; names = names } }
{
    let source = source.into_inner();
    ReferenceFound {
        part: RefPart {
            source: source.part,
            dims: parts.0,
            measures: parts.1,
            kinds,
            ignore_nav,
        },
        names,
    }
}

fn reference_of(
    alloc: Global,
    around: bool,
    r: &RefTree,
    source: Boxed<PlainFound>,
    dims: Items<ListItem>,
    measures: Items<ListItem>,
) -> Result<ReferenceFound, Memory>
    ensures { IfOk result (λ found. found ≡ spec.reference_of around r.now source dims measures) }
{
    let names = names_of(alloc, &r.name, dims.as_slice(), measures.as_slice())?;
    let kinds = kinds_of(alloc, dims.as_slice(), measures.as_slice())?;
    let parts = parts_of(alloc, dims, measures)?;
    let ignore_nav = ignores_nav(r.opts.as_slice(), around);
    Ok(reference_with(source, parts, kinds, ignore_nav, names))
}

// The query stands on the heap, so that it is one word beside the steps that may fail.
fn lists_over(
    alloc: Global,
    around: bool,
    r: &RefTree,
    source: Boxed<PlainFound>,
    scope: &Scope,
) -> Result<ReferenceFound, Fail<Refused>>
    ensures { Gives result (spec.lists_over around r.now source scope.now) }
{
    let dims = dims_listed(alloc, r, scope)?;
    let measures = measures_listed(alloc, r, dims.as_slice(), scope)?;
    if options_clash(r.opts.as_slice()) {
        return Err(misuse(MISUSE_OF_OPTIONS));
    }
    Ok(reference_of(alloc, around, r, source, dims, measures)?)
}

fn reference_over(
    alloc: Global,
    around: bool,
    r: &RefTree,
    source: Boxed<PlainFound>,
) -> Result<ReferenceFound, Fail<Refused>>
    ensures { Gives result (spec.lists_over around r.now source (spec.printed_scope source.printed)) }
{
    let scope = printed_scope(alloc, source.get().printed.as_slice())?;
    lists_over(alloc, around, r, source, &scope)
}

// A reference behind others of these names.
fn reference_bound(
    alloc: Global,
    catalog: &Catalog,
    around: bool,
    earlier: &[Words],
    r: &RefTree,
) -> Result<ReferenceFound, Fail<Refused>>
    ensures { Gives result (spec.reference_bound catalog.now around earlier.now r.now) }
{
    let name = folded(alloc, r.name.as_str())?;
    if has_name(earlier, &name) {
        return Err(duplicate_name(name));
    }
    let source = held_plain(alloc, catalog, &r.query)?;
    reference_over(alloc, around, r, source)
}

// The same on the heap, so that it is moved as one word.
fn held_reference(
    alloc: Global,
    catalog: &Catalog,
    around: bool,
    earlier: &[Words],
    r: &RefTree,
) -> Result<Boxed<ReferenceFound>, Fail<Refused>>
    ensures { Gives result (spec.reference_bound catalog.now around earlier.now r.now) }
{
    held(alloc, reference_bound(alloc, catalog, around, earlier, r))
}

fn references_found(
    alloc: Global,
    catalog: &Catalog,
    around: bool,
    refs: &[RefTree],
) -> Result<Items<ReferenceFound>, Fail<Refused>>
    ensures { Gives result (each_behind (spec.reference_bound catalog.now around) spec.reference_name [] refs.now) }
{
    let mut names = Items::new(alloc);
    let mut found = Items::new(alloc);
    'refs: for r in refs {
        let reference = held_reference(alloc, catalog, around, names.as_slice(), r)?;
        names.push(reference.get().names.name.copy()?)?;
        found.push(reference.into_inner())?;
    }
    Ok(found)
}

/// The references of a model, each under a new name; `around` is the NAV option at MODEL.
pub fn references_bound(
    alloc: Global,
    catalog: &Catalog,
    around: bool,
    refs: &[RefTree],
) -> Result<Items<ReferenceFound>, Fail<Refused>>
    ensures { Gives result (spec.references_bound catalog.now around refs.now) }
{
    let found = references_found(alloc, catalog, around, refs)?;
    limited(MAX_REFERENCES, LIMIT_OF_REFERENCES, found)
}
