//! Laws of the definitions on graphs, each as the contract of a function with nothing to do.
ghost use Rattle.std.specs.Prelude.{◌≡◌, ℕ, Bool, List, [], length, IsTrue, ◌↔◌};
ghost use Rattle.fc_base.specs.Graph.{IsIn, Reaches, Closed, Acyclic, ReadsOnlyDeps, IsFixpoint, full_at, reaches_in, CarriesRules, EvaluatesAll, IsOrdered};

/// Where nothing depends on itself, what each has by its rule is what is worked out from nothing.
pub fn fixpoint_is_full<S, O>()
    ensures { (deps : S → List S) (local : S → (S → O) → O) (slots : List S) (start : O) (w : S → O)
        → Closed deps slots → Acyclic deps slots → ReadsOnlyDeps deps local → IsFixpoint local slots w
        → (s : S) → IsIn s slots → full_at local start (length slots) s ≡ w s }
{}

/// Where each rule is carried to a new place, each has there what it had.
pub fn renaming_keeps_outcomes<S, T, O>()
    ensures { (deps : S → List S) (local : S → (S → O) → O) (moved : T → (T → O) → O) (place : S → T) (slots : List S) (start : O)
        → Closed deps slots → ReadsOnlyDeps deps local → CarriesRules local moved place slots
        → (n : ℕ) (s : S) → IsIn s slots → full_at moved start n (place s) ≡ full_at local start n s }
{}

/// What is evaluated one by one, each behind its dependencies, ends with each having what its rule
/// gives.
pub fn evaluation_in_order_settles<S, O>()
    ensures { (deps : S → List S) (local : S → (S → O) → O) (order : List S) (v w : S → O)
        → ReadsOnlyDeps deps local → IsOrdered deps [] order → EvaluatesAll local order v w → IsFixpoint local order w }
{}

/// The test for a dependency within as many steps as there are slots says exactly whether there is
/// one, at any number of steps.
pub fn cycle_test_is_exact<S>()
    ensures { (same : S → S → Bool) (deps : S → List S) (slots : List S)
        → ((x y : S) → IsTrue (same x y) ↔ (x ≡ y)) → Closed deps slots
        → (s t : S) → IsIn s slots → IsTrue (reaches_in same deps (length slots) s t) ↔ Reaches deps s t }
{}
