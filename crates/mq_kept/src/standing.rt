//! What is kept of a view from one statement to the next.
use crate::kept_view::KeptView;

/// What is kept of a view, and whether it is so over the tables as they stand (`IsStanding` of `specs/Standing`). Where it is not, it
/// is brought to them when the view is asked for.
#[derive(Drop)]
pub struct StandingView {
    pub view: KeptView,
    pub fresh: bool,
}
