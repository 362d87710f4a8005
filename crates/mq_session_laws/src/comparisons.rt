ghost use Rattle.std.specs.Prelude.{ℕ, List};
ghost use Rattle.mq_ir.specs.declared.query.BoundQuery.{BoundQuery};
ghost use Rattle.mq_ir.specs.declared.statement.Change.{Change};
ghost use Rattle.mq_ir.specs.Statement.{State};
ghost use Rattle.mq_session_laws.specs.ScenarioLaws.{OthersPlayNoPart, ScenarioIsSession};

/// What a comparison says of a scenario is what its query answers in a session in which the scenario's changes alone were
/// made, one after another, or the first of them that is refused there (docs/MEANING.md, "Scenarios").
pub fn scenarios_are_sessions()
    ensures { (state : State) (query : BoundQuery) (changes : List Change) → ScenarioIsSession state query changes }
{}

/// A change that another scenario takes in alters nothing of it (docs/MEANING.md, "Scenarios").
pub fn other_scenarios_play_no_part()
    ensures { (state : State) (query : BoundQuery) (name : List ℕ) (other : List ℕ) (change : Change)
        → OthersPlayNoPart state query name other change }
{}
