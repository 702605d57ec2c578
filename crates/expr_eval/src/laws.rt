//! Laws of the definitions, each as the contract of a function with nothing to do.
ghost use Rattle.fc_base.specs.Places.{Block};
ghost use Rattle.expr_eval.specs.Examples.{ExpressionsWork};
ghost use Rattle.expr_eval.specs.Kinds.{NoWrongOperands, OutcomeHasSort};
ghost use Rattle.expr_eval.specs.Spelling.{OutcomeIgnoresRenaming, OutcomeIgnoresSpelling, SortIgnoresRenaming, SortIgnoresSpelling, VisitsIgnoreRenaming, VisitsIgnoreSpelling};
ghost use Rattle.expr_eval.specs.ValuesGiven.{OutcomesAreValues};
ghost use Rattle.expr_eval.specs.Visited.{VisitsAreWithin};

/// Expressions have the sorts and outcomes that were worked out by hand, and as many of their nodes are
/// visited.
pub fn expressions_work()
    ensures { (area : Block) → ExpressionsWork area }
{}

/// An expression that has a sort, for outcomes of the sorts behind its references, has a value of its
/// sort or a value fault.
pub fn outcome_has_sort()
    ensures { OutcomeHasSort }
{}

/// In such an expression no operation meets operands of a kind or a unit that it does not want:
/// whatever it gave on them, the outcome is the same.
pub fn no_wrong_operands()
    ensures { NoWrongOperands }
{}

/// Where what the references give are values of the product or faults, so is what an expression that
/// can be spelled gives: amounts stay in their bound, units keep exponents of -8 to 7, and texts are
/// text values.
pub fn outcomes_are_values()
    ensures { OutcomesAreValues }
{}

/// The outcome of an expression hangs on what its references give, and not on how they are spelled.
pub fn outcome_ignores_spelling()
    ensures { OutcomeIgnoresSpelling }
{}

/// The same where each reference is changed by its number.
pub fn outcome_ignores_renaming()
    ensures { OutcomeIgnoresRenaming }
{}

/// The sort of an expression hangs on the sorts behind its references, and not on how they are
/// spelled.
pub fn sort_ignores_spelling()
    ensures { SortIgnoresSpelling }
{}

/// The same where each reference is changed by its number.
pub fn sort_ignores_renaming()
    ensures { SortIgnoresRenaming }
{}

/// Of an expression the root is visited, and no more nodes than there are.
pub fn visits_are_within()
    ensures { VisitsAreWithin }
{}

/// How many nodes are visited hangs on what the references give, and not on how they are spelled.
pub fn visits_ignore_spelling()
    ensures { VisitsIgnoreSpelling }
{}

/// The same where each reference is changed by its number.
pub fn visits_ignore_renaming()
    ensures { VisitsIgnoreRenaming }
{}
