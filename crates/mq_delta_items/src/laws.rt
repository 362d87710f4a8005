//! Laws of lines and of changes.
ghost use Rattle.mq_delta_items.specs.Lines.{LinesTell};
ghost use Rattle.mq_delta_items.specs.Touching.{ChangesTouch};

/// The items of a query that takes the rows of one table are those of its lines. The call does nothing: its contract is the law
/// (docs/MEANING.md, "Groups and items").
pub fn lines_tell_items()
    ensures { LinesTell }
{}

/// The rows of the table of a change follow those before it by what the change touched, and the rows of all other tables are as they
/// were. The call does nothing: its contract is the law (docs/MEANING.md, "Changes").
pub fn changes_touch_rows()
    ensures { ChangesTouch }
{}
