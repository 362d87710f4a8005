//! Measures that are put to a set.
ghost use Rattle.std.specs.Prelude.{◌≡◌, [], ◌∷◌, OnOk};
ghost use Rattle.std.specs.List.{filter_map};
ghost use Rattle.mq_ir.specs.Derivations.{measure_of};
ghost use Rattle.mq_lineage.specs.Closing.{HasMore};
ghost use Rattle.mq_lineage.specs.Held.{is_held};

use crate::source_set::SourceSet;
use mq_ir::Look;
use mq_values::Memory;

/// Puts the measures among these looks to a set.
pub fn add_all(looks: &[Look], found: &mut SourceSet<'_>, near: &mut u32) -> Result<(), Memory>
    ensures more { OnOk result (HasMore (filter_map measure_of looks.now) (is_held found.old) (is_held found.new)) }
    ensures places { found.new.places ≡ found.old.places }
{
    'looks: for look in looks {
        add_look(look, found, near)?;
    }
    Ok(())
}

// The measure of a look, where it is of one.
fn add_look(look: &Look, found: &mut SourceSet<'_>, near: &mut u32) -> Result<(), Memory>
    ensures more { OnOk result (HasMore (filter_map measure_of (look.now ∷ [])) (is_held found.old) (is_held found.new)) }
    ensures places { found.new.places ≡ found.old.places }
{
    match look {
        Look::Measure(name) => found.add(name, near),
        Look::Presence(_) => Ok(()),
    }
}
