ghost use Rattle.std.specs.Prelude.{List};
ghost use Rattle.mq_values.specs.declared.operators.Mode.{Mode};
ghost use Rattle.mq_ir.specs.declared.query.SingleLeft.{SingleLeft};
ghost use Rattle.mq_ir.specs.declared.query.SinglePlace.{SinglePlace};
ghost use Rattle.mq_ir.specs.Keys.{Tuple};
ghost use Rattle.mq_ir.specs.LeftLaws.{CountsByProduct, CreatesWhatIsMissing, LastTurnsFastest, SymbolCreatesNone, UpdateCreatesNone};

/// UPDATE creates no cell. The call does nothing: its contract is the law (docs/MEANING.md, "Left sides").
pub fn update_creates_none()
    ensures { (left : SingleLeft) (set : List Tuple) → UpdateCreatesNone left set }
{}

/// Under UPSERT a left side with a symbolic item creates no cell. The call does nothing: its contract is the
/// law (docs/MEANING.md, "Left sides").
pub fn symbolic_upsert_creates_none()
    ensures { (left : SingleLeft) (set : List Tuple) → SymbolCreatesNone left set }
{}

/// The created cells are the targets that are not there, each once. The call does nothing: its contract is
/// the law (docs/MEANING.md, "Left sides").
pub fn missing_targets_are_created()
    ensures { (left : SingleLeft) (mode : Mode) (set : List Tuple) → CreatesWhatIsMissing left mode set }
{}

/// A rule stands for as many single left sides as the product of its lists says. The call does nothing: its
/// contract is the law (docs/MEANING.md, "Left sides").
pub fn combinations_are_counted()
    ensures { (lists : List (List SinglePlace)) → CountsByProduct lists }
{}

/// Of the lists of a left side the last turns fastest: behind each combination of the others stand all its
/// values, in order. The call does nothing: its contract is the law (docs/MEANING.md, "Left sides").
pub fn last_list_turns_fastest()
    ensures { (lists : List (List SinglePlace)) (last : List SinglePlace) → LastTurnsFastest lists last }
{}
