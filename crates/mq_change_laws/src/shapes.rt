ghost use Rattle.std.specs.Prelude.{List};
ghost use Rattle.mq_ir.specs.declared.query.PartShape.{PartShape};
ghost use Rattle.mq_ir.specs.Keys.{Tuple};
ghost use Rattle.mq_ir.specs.Unfolding.{Model};
ghost use Rattle.mq_change_laws.specs.ShapeLaws.{ShapeIsSound};

/// The shape of keys that ascend is sound: its cells ascend and hold these keys; each assignment is of a cell that is
/// there, by a rule of the model, and no measure of a cell is assigned twice (docs/MEANING.md, "Laws of a change").
pub fn shapes_are_sound()
    ensures { (model : Model) (keys : List Tuple) (shape : PartShape) → ShapeIsSound model keys shape }
{}
