// The theorems of this layer. A function here does nothing: its contract is the theorem.
ghost use Rattle.std.specs.Prelude.{List};
ghost use Rattle.ledger.specs.AnswerLaws.{AnswerIsLawful};
ghost use Rattle.ledger.specs.Ledger.{Call, Charges, ledger};
ghost use Rattle.ledger.specs.Promise.{Promise};
ghost use Rattle.ledger.specs.QuestionLaws.{QuestionsAreLawful};
ghost use Rattle.ledger.specs.Queue.{pump_slot};
ghost use Rattle.ledger.specs.Served.{FirstServedPins, RunsServeFirst, ServesFirst, pumped_from_back};
ghost use Rattle.ledger.specs.Sound.{Sound};
ghost use Rattle.ledger.specs.SoundTest.{SoundIsTested};
ghost use Rattle.ledger.specs.Theorems.{InLine, RunsAlwaysAgree, TopSpeedDecides, OpenWorkArrives, MeasuredPlan};

use measure::Measure;

/// In a queue that is in order, unnested, of distinct numbers, with something left of each job and each due after the clock
/// and by the end, speeds for the slots left, run on the ledger, finish every open job in time exactly if they are in time by
/// what has arrived and what is owed. After every list of calls the queue is such a one.
pub fn runs_and_work_sums_agree()
    ensures agree { RunsAlwaysAgree }
    ensures always { (h : List Call) → InLine (ledger h).clock (ledger h).slots (ledger h).queue }
{}

/// Where the list of speeds is lawful, some sequence of listed speeds is in time exactly if top speed in every slot is.
pub fn top_speed_decides()
    ensures { TopSpeedDecides }
{}

/// The ledger is sound after every list of calls, and a test tells whether a ledger is.
pub fn ledger_is_sound()
    ensures always { (h : List Call) → Sound (ledger h) }
    ensures tested { SoundIsTested }
{}

/// The promise, after every list of calls and for every next call.
pub fn promise_holds()
    ensures { (h : List Call) (c : Call) → Promise h c }
{}

/// What each call changes and answers, told by the ledger before and after it; a refusal changes nothing.
pub fn answers_are_lawful()
    ensures { (h : List Call) (c : Call) → AnswerIsLawful (ledger h) c }
{}

/// First in the queue, first served: this law of a run slot says what each job loses, so it leaves just one queue. Pumping in
/// queue order keeps it; from the back of the queue does not.
pub fn first_served_pins_a_slot()
    ensures pins { FirstServedPins }
    ensures runs { RunsServeFirst }
    ensures in_queue_order { ServesFirst pump_slot }
    ensures from_the_back { ServesFirst pumped_from_back → ⊥ }
{}

/// A job is told for each place below the count; a speed and a mark while a plan stands, the speed for each slot not yet run.
pub fn questions_are_lawful()
    ensures { (h : List Call) → QuestionsAreLawful (ledger h) }
{}

/// While a slot is left, all open work has arrived by the last slot; at the end there is none.
pub fn open_work_arrives()
    ensures { (h : List Call) → OpenWorkArrives (ledger h) }
{}

/// The promise of planning over a measure's own values.
pub fn measured_plan_is_best<M: Measure>()
    ensures { (h : List Call) (t : Charges) → MeasuredPlan M.Measure.kind M.Measure.laws (ledger h) t }
{}
