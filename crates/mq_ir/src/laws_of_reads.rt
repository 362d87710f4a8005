ghost use Rattle.std.specs.Prelude.{ℕ, List};
ghost use Rattle.mq_ir.specs.declared.expression.Expr.{Expr};
ghost use Rattle.mq_ir.specs.declared.query.PartShape.{PartShape};
ghost use Rattle.mq_ir.specs.declared.query.Rule.{Rule};
ghost use Rattle.mq_ir.specs.Keys.{Tuple};
ghost use Rattle.mq_ir.specs.ReadLaws.{PresenceOfInput, ReadsItsLooks, SameStep, StepReadsItsLooks};
ghost use Rattle.mq_ir.specs.Reads.{Site};
ghost use Rattle.mq_ir.specs.Unfolding.{Model};

/// Whether a cell is present is asked of the partition's input alone. The call does nothing: its contract is the
/// law (docs/MEANING.md, "Reads").
pub fn presence_is_of_the_input()
    ensures { (site : Site) (input : List Tuple) (indices : List Expr) → PresenceOfInput site input indices }
{}

/// What an expression is worth depends on the measures that it looks at alone. The call does nothing: its contract
/// is the law (docs/MEANING.md, "Looks").
pub fn reads_are_among_looks()
    ensures { (site : Site) (input : List Tuple) (e : Expr) → ReadsItsLooks site input e }
{}

/// The slot that a rule makes of a target depends on the slots that it looks at alone. The call does nothing: its
/// contract is the law (docs/MEANING.md, "Automatic order").
pub fn steps_read_their_looks()
    ensures { (model : Model) (shape : PartShape) (turn : ℕ) (rule : Rule) (target : Tuple) → StepReadsItsLooks model shape turn rule target }
{}

/// One rule makes the same of a target over two cell sets and two inputs that agree at its looks. The call does
/// nothing: its contract is the law (docs/MEANING.md, "Automatic order").
pub fn same_looks_make_the_same_step()
    ensures { (model : Model) (shape : PartShape) (other : PartShape) (turn : ℕ) (rule : Rule) (target : Tuple)
        → SameStep model shape other turn rule target }
{}
