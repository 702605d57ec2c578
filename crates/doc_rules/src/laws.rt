//! Laws of the definitions, each as the contract of a function with nothing to do.
ghost use Rattle.std.specs.Prelude.{◌≡◌, Bool, IsTrue, List, Err, Ok, Some};
ghost use Rattle.std.specs.List.{AllByRecursion};
ghost use Rattle.property_types.specs.Plans.{Slots};
ghost use Rattle.document_model.specs.Document.{Document};
ghost use Rattle.document_model.specs.WellFormed.{IsPlan, IsWellFormed};
ghost use Rattle.document_outcomes.specs.Faults.{Fault, IsValid, first_fault};
ghost use Rattle.document_outcomes.specs.Full.{Meanings};
ghost use Rattle.doc_rules.specs.declared.edit.Edit.{Edit};
ghost use Rattle.doc_rules.specs.declared.refusal.Refusal.{Refusal};
ghost use Rattle.doc_rules.specs.Edits.{Accepted, IsNamed, edited};
ghost use Rattle.doc_rules.specs.OutcomesKept.{HasTypedOutcomes, ValidDocumentsHaveTypedOutcomes};
ghost use Rattle.doc_rules.specs.Refusals.{is_refusal_number};

/// The first fault of a document has one of the numbers of refusals.
pub fn faults_are_named()
    ensures { (d : Document) (f : Fault) → first_fault d ≡ Some f → IsTrue (is_refusal_number f.number) }
{}

/// An edit is refused with one of the numbers of refusals.
pub fn refused_edits_are_named()
    ensures { (plans : List Slots) (m : Meanings) (clean : Bool) (d : Document) (e : Edit) (r : Refusal) → edited plans m clean d e ≡ Err r → IsNamed r }
{}

/// An edit that is accepted leads to a valid document.
pub fn accepted_edits_are_valid()
    ensures { (plans : List Slots) (m : Meanings) (clean : Bool) (d : Document) (e : Edit) (a : Accepted) → edited plans m clean d e ≡ Ok a → IsValid a.document }
{}

/// An edit that is accepted keeps the form of a document, whatever kinds its objects are of, where the
/// plans of the features at hand are plans, and the outcomes of its slots are values of their types.
pub fn edits_keep_form()
    ensures { (plans : List Slots) (m : Meanings) (clean : Bool) (d : Document) (e : Edit) (a : Accepted)
        → AllByRecursion IsPlan plans → HasTypedOutcomes m d → IsWellFormed d → edited plans m clean d e ≡ Ok a → IsWellFormed a.document }
{}

/// In a valid document the outcomes of slots are values of their types, where features and placements
/// give values of the sorts that they should.
pub fn outcomes_are_typed()
    ensures { ValidDocumentsHaveTypedOutcomes }
{}
