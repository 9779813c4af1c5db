// Worked stays, and wrong ways that they refute.
ghost use Rattle.ledger.specs.Edges.{RuleEdges, FirstRules, QueueEdges, AnswerEdges, QuestionEdges, LedgerEdges, RunEdges};
ghost use Rattle.ledger.specs.Trials.{Trials};
ghost use Rattle.ledger.specs.Wrong.{Refuted};

/// The trial stays come to what they must.
pub fn trials_hold()
    ensures { Trials }
{}

/// Each rule holds on the right side of each of its bounds, and each answer and question is what it must be.
pub fn edges_hold()
    ensures rules { RuleEdges }
    ensures first { FirstRules }
    ensures queue { QueueEdges }
    ensures answers { AnswerEdges }
    ensures questions { QuestionEdges }
    ensures ledger { LedgerEdges }
    ensures runs { RunEdges }
{}

/// Planners, verdicts, nestings and measures that are nearly right are refuted.
pub fn wrong_ways_are_refuted()
    ensures { Refuted }
{}
