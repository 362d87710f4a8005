ghost use Rattle.mq_ir.specs.WorkedScript.{AnswerDownwards, RepeatedKey};
ghost use Rattle.mq_ir.specs.Worked.{CycleAtLeast, HalvedInTurns, OrderMissing, OrderedDownwards, SumOfRange, UpsertedCells};

/// What some small models come to, worked out by hand and computed from the definitions. The call does nothing: its
/// contract has the results (docs/MEANING.md, "Worked results").
pub fn worked_results()
    ensures upserted { UpsertedCells }
    ensures order_missing { OrderMissing }
    ensures ordered_downwards { OrderedDownwards }
    ensures halved_in_turns { HalvedInTurns }
    ensures cycle { CycleAtLeast }
    ensures sum_of_range { SumOfRange }
    ensures answer_downwards { AnswerDownwards }
    ensures repeated_key { RepeatedKey }
{}
