//! What stands before the rules of a model: the main options, how many rules, and ITERATE (docs/LANGUAGE.md, "The order of binding").

ghost use Rattle.std.specs.Prelude.{◌≡◌};
ghost use Rattle.mq_values.specs.Answers.{Gives};
ghost use Rattle.mq_bind_scopes.specs.Heads as spec;

use crate::misuse_numbers::{MISUSE_OF_ITERATE, MISUSE_OF_OPTIONS};
use crate::options::options_clash;
use crate::refusals::{limit, misuse};
use mq_ast::ModelTree;
use mq_ir::{LIMIT_OF_RULES, LIMIT_OF_TURNS};
use mq_values::{Fail, MAX_RULES, MAX_TURNS, Num, Refused};

// The number of ITERATE is a whole number from 1 on.
fn turns_of(n: &Num) -> Option<u32>
    ensures { result ≡ spec.turns_of n.now }
{
    match u32::try_from(n.mant()) {
        Ok(turns) => {
            if 0 < turns && turns as usize <= MAX_TURNS {
                Some(turns)
            } else {
                None
            }
        }
        Err(_) => None,
    }
}

fn turns_bound(iterate: &Option<Num>) -> Result<Option<u32>, Fail<Refused>>
    ensures { Gives result (spec.turns_bound iterate.now) }
{
    match iterate {
        None => Ok(None),
        Some(n) => match turns_of(n) {
            Some(turns) => Ok(Some(turns)),
            None => Err(limit(LIMIT_OF_TURNS)),
        },
    }
}

/// The main options, the number of rules, that of ITERATE, and ITERATE with AUTOMATIC ORDER.
pub fn head_bound(m: &ModelTree) -> Result<Option<u32>, Fail<Refused>>
    ensures { Gives result (spec.head_bound m.now) }
{
    if options_clash(m.main_opts.as_slice()) {
        return Err(misuse(MISUSE_OF_OPTIONS));
    }
    if m.rules.len() > MAX_RULES {
        return Err(limit(LIMIT_OF_RULES));
    }
    let turns = turns_bound(&m.iterate)?;
    if m.auto && turns.is_some() {
        return Err(misuse(MISUSE_OF_ITERATE));
    }
    Ok(turns)
}
