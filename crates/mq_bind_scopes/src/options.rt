//! The options of a list (docs/LANGUAGE.md, "The order of binding").

ghost use Rattle.std.specs.Prelude.{◌≡◌, filter, length};
ghost use Rattle.std.specs.List.{list_any};
ghost use Rattle.mq_bind_scopes.specs.Options as spec;

use mq_ast::Opt;

fn is_nav(option: Opt) -> bool
    ensures { result ≡ spec.is_nav option }
{
    match option {
        Opt::UniqueDimension => false,
        Opt::IgnoreNav | Opt::KeepNav => true,
    }
}

fn is_unique(option: Opt) -> bool
    ensures { result ≡ spec.is_unique option }
{
    !is_nav(option)
}

fn is_ignore(option: Opt) -> bool
    ensures { result ≡ spec.is_ignore option }
{
    match option {
        Opt::IgnoreNav => true,
        Opt::UniqueDimension | Opt::KeepNav => false,
    }
}

fn count_nav(opts: &[Opt]) -> usize
    ensures { result ≡ length (filter spec.is_nav opts.now) }
{
    opts.iter().filter(|o| is_nav(**o)).count()
}

fn count_unique(opts: &[Opt]) -> usize
    ensures { result ≡ length (filter spec.is_unique opts.now) }
{
    opts.iter().filter(|o| is_unique(**o)).count()
}

/// IGNORE NAV and KEEP NAV in one list, or one option twice.
pub fn options_clash(opts: &[Opt]) -> bool
    ensures { result ≡ spec.options_clash opts.now }
{
    count_nav(opts) > 1 || count_unique(opts) > 1
}

fn any_nav(opts: &[Opt]) -> bool
    ensures { result ≡ list_any spec.is_nav opts.now }
{
    opts.iter().any(|o| is_nav(*o))
}

fn any_ignore(opts: &[Opt]) -> bool
    ensures { result ≡ list_any spec.is_ignore opts.now }
{
    opts.iter().any(|o| is_ignore(*o))
}

/// Whether NAV is ignored: by the own option, else by the one around it.
pub fn ignores_nav(opts: &[Opt], around: bool) -> bool
    ensures { result ≡ spec.ignores_nav opts.now around }
{
    if any_nav(opts) {
        any_ignore(opts)
    } else {
        around
    }
}
