// The theorems of this layer, each over every kind of measure and every charge. A function here does nothing: its contract
// is the theorem.
ghost use Rattle.std.specs.Prelude.{◌≡◌, ℕ, List};
ghost use Rattle.tariff.specs.Checks.{TestIsExact};
ghost use Rattle.recursion.specs.Staged.{Staged};
ghost use Rattle.recursion.specs.Optimality.{IsLeast, Recursion, Optimal, ByOrderAlone, SameOrderSamePlan, RestIsPlanned};
ghost use Rattle.recursion.specs.Pumps.{Pump, PumpRecursion, PumpOptimal, SameSlots, SamePlan, decisions};
ghost use Rattle.recursion.specs.Speeds.{LawfulList, lawful_speeds};
ghost use Rattle.recursion.specs.Trials.{Trials};

use measure::Measure;

/// What is least is what the rule of the recursion says, for states of every type.
pub fn decisions_follow_the_recursion<X, M: Measure>()
    ensures end { (y : Staged X) (k : ℕ) (x : X) → IsLeast M.Measure.kind y 0 k x 0 M.Measure.kind.nought }
    ensures rule { (y : Staged X) (n k : ℕ) (x : X) → Recursion M.Measure.kind y n k x }
{}

/// The principle of optimality, for states of every type.
pub fn planned_choices_are_best<X, M: Measure>()
    ensures optimal { (y : Staged X) (n k : ℕ) (x : X) → Optimal M.Measure.kind y n k x }
    ensures order { (y : Staged X) (n k : ℕ) (x : X) → ByOrderAlone M.Measure.kind y n k x }
    ensures rest { (y : Staged X) (n k : ℕ) (x : X) → RestIsPlanned M.Measure.kind y n k x }
{}

/// Two measures that order lists of charges alike plan alike.
pub fn same_order_same_plan<X, M: Measure, K: Measure>()
    ensures { (y : Staged X) (n k : ℕ) (x : X) → SameOrderSamePlan M.Measure.kind K.Measure.kind y n k x }
{}

/// The same of a pump, in its own words: slots, listed speeds, work done. Its plan depends on its slots left alone.
pub fn planned_speeds_are_best<M: Measure>()
    ensures rule { (y : Pump) (n k e : ℕ) → PumpRecursion M.Measure.kind y n k e }
    ensures optimal { (y : Pump) (n k e : ℕ) → PumpOptimal M.Measure.kind y n k e }
    ensures order { (y : Pump) (n k e : ℕ) → ByOrderAlone M.Measure.kind (decisions y) n k e }
    ensures rest { (y : Pump) (n k e : ℕ) → RestIsPlanned M.Measure.kind (decisions y) n k e }
    ensures alike { (y z : Pump) (n k e : ℕ) → y.speeds ≡ z.speeds → SameSlots y z n k → SamePlan M.Measure.kind y z n k e }
{}

/// The test of a list of speeds passes exactly if the list keeps its rules.
pub fn lawful_lists_are_tested_exactly()
    ensures { (ss : List ℕ) → TestIsExact (LawfulList ss) (lawful_speeds ss) }
{}

/// The worked stays have the plans that they must have.
pub fn trials_hold()
    ensures { Trials }
{}
