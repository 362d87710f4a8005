ghost use Rattle.std.specs.Prelude.{ℕ, List};
ghost use Rattle.mq_ir.specs.Statement.{State};
ghost use Rattle.mq_tool.specs.Loads.{FileMap};
ghost use Rattle.mq_tool.specs.Script.{Read};
ghost use Rattle.mq_bind_laws.specs.ColumnsWithin.{ColumnsStayWithin, ScriptKeepsCatalog, ViewsNameMeasures};

use mq_binder::{measures_are_named, schemas_fit};

/// Columns stay within the limit of scales, as what is bound under a catalog needs it to fit.
pub fn columns_stay_within()
    ensures { (files : FileMap) (state : State) (r : ℕ × Read) → ColumnsStayWithin files state r }
{
    schemas_fit();
}

/// The models of views that queries are bound to have a name for each measure, as that needs it too.
pub fn views_name_measures()
    ensures { (state : State) → ViewsNameMeasures state }
{
    measures_are_named();
}

/// So both hold of the catalog of each state that a script comes to.
pub fn scripts_keep_catalogs()
    ensures { (files : FileMap) (script : List (ℕ × Read)) → ScriptKeepsCatalog files script }
{
    schemas_fit();
    measures_are_named();
}
