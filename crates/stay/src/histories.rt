// Theorems on stays and lists of calls. A function here does nothing: its contract is the theorem.
ghost use Rattle.ledger.specs.Promise.{Upheld};
ghost use Rattle.ledger.specs.QuestionLaws.{QuestionsAreLawful};
ghost use Rattle.stay.specs.Contents.{contents};
ghost use Rattle.stay.specs.Histories.{EveryListOfCalls};

use crate::stay::Stay;

/// Of every stay that exists: no open job is overdue, the plan answered next is best, the verdict on the next booking exact; and
/// the questions keep their laws.
pub(crate) fn every_stay_keeps_its_word()
    ensures upheld { (s : Stay) → Upheld (contents s) }
    ensures questions { (s : Stay) → QuestionsAreLawful (contents s) }
{}

/// From a new stay, any list of calls, each of which goes as its contract says, keeps the stay and the ledger the same and the
/// promise true.
pub(crate) fn every_list_of_calls_keeps_the_promise()
    ensures { EveryListOfCalls }
{}
