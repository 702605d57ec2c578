//! Laws of the definitions, each as the contract of a function with nothing to do.
ghost use Rattle.std.specs.Prelude.{◌≡◌, ◌↔◌, IsTrue, List, [], ◌∷◌, Some};
ghost use Rattle.fc_base.specs.Graph.{Acyclic, EvaluatesAll, IsFixpoint, IsIn, Reaches, ReadsOnlyDeps};
ghost use Rattle.object_paths.specs.Slots.{Slot};
ghost use Rattle.property_types.specs.Values.{Outcome};
ghost use Rattle.expr_eval.specs.SortRows.{SortOutcome};
ghost use Rattle.document_model.specs.Dependencies.{deps};
ghost use Rattle.document_model.specs.Document.{Document, Object};
ghost use Rattle.document_model.specs.Slots.{inherit, rule_of, slots};
ghost use Rattle.document_outcomes.specs.Cycles.{HasNoCycle, OrdersSlots, is_cyclic, leads_back, targets};
ghost use Rattle.document_outcomes.specs.Faults.{IsValid};
ghost use Rattle.document_outcomes.specs.Full.{Meanings, full, local};
ghost use Rattle.document_outcomes.specs.LimitsPassed.{LimitsAreExact};
ghost use Rattle.document_outcomes.specs.NoFault.{HasNoFault};
ghost use Rattle.document_outcomes.specs.Renames.{RelabellingsKeepDependencies, RelabellingsKeepOutcomes, RelabellingsKeepSlots};
ghost use Rattle.document_outcomes.specs.Sorts.{local_sort, sort};
ghost use Rattle.document_outcomes.specs.Typed.{NoSlotHasWrongOperands, OutcomesHaveSorts, PlacementsFaultTogether, SortsCanBeGiven};
ghost use Rattle.document_outcomes.specs.WorkedFaultedInputs.{FaultedInputsWork};
ghost use Rattle.document_outcomes.specs.WorkedFaults.{FirstFaultsWork};
ghost use Rattle.document_outcomes.specs.WorkedLinks.{FeaturesWork, LinkFaultsWork, LinksWork, SheetWorks};
ghost use Rattle.document_outcomes.specs.WorkedMembers.{EntriesWork, HiddenAliasesWork, MembersWork, PlacementsWork};
ghost use Rattle.document_outcomes.specs.WorkedNumbers.{ChainWorks, FaultedWorks};
ghost use Rattle.document_outcomes.specs.WorkedOrder.{KindsOfFaultsWork, ReferenceFaultsWork, SortFaultsWork};

/// A slot that a link inherits depends on the target's slot of its name, which is there, and on
/// nothing else; in every document.
pub fn inherited_slots_have_one_dependency()
    ensures { (d : Document) (s t : Slot) → rule_of d s ≡ Some (inherit t) → deps d s ≡ t ∷ [] }
{}

/// The outcome of a slot hangs on the outcomes of the slots that it depends on, and on nothing else.
pub fn outcomes_read_dependencies_alone()
    ensures { (m : Meanings) (d : Document) → ReadsOnlyDeps (deps d) (local m d) }
{}

/// The sort of a slot hangs on the sorts of the slots that it depends on, and on nothing else.
pub fn sorts_read_dependencies_alone()
    ensures { (d : Document) → ReadsOnlyDeps (deps d) (local_sort d) }
{}

/// The test for a slot that depends on itself, directly or through others, says exactly that.
pub fn cyclic_slots_reach_themselves()
    ensures { (d : Document) (s : Slot) → IsIn s (slots d) → IsTrue (is_cyclic d s) ↔ Reaches (deps d) s s }
{}

/// The test for a link whose targets lead back to it says exactly that.
pub fn links_that_lead_back_reach_themselves()
    ensures { (d : Document) (o : Object) → IsIn o d.objects → IsTrue (leads_back d o) ↔ Reaches (targets d) o.name o.name }
{}

/// In a document without cycles, outcomes that are what the rule of each slot gives from them are
/// the full outcomes.
pub fn outcomes_are_full()
    ensures { (m : Meanings) (d : Document) (w : Slot → Outcome)
        → HasNoCycle d → IsFixpoint (local m d) (slots d) w → (s : Slot) → IsIn s (slots d) → full m d s ≡ w s }
{}

/// In a document without cycles, the full outcome of each slot is what its rule gives from the full
/// outcomes.
pub fn full_meets_its_rule()
    ensures { (m : Meanings) (d : Document) → HasNoCycle d → IsFixpoint (local m d) (slots d) (full m d) }
{}

/// In a document without cycles, sorts that are what the rule of each slot gives from them are the
/// sorts.
pub fn sorts_are_full()
    ensures { (d : Document) (w : Slot → SortOutcome)
        → HasNoCycle d → IsFixpoint (local_sort d) (slots d) w → (s : Slot) → IsIn s (slots d) → sort d s ≡ w s }
{}

/// In a document without cycles, the sort of each slot is what its rule gives from the sorts.
pub fn sort_meets_its_rule()
    ensures { (d : Document) → HasNoCycle d → IsFixpoint (local_sort d) (slots d) (sort d) }
{}

/// Where the slots of a document stand in an order, each behind its dependencies, none depends on
/// itself; and what is found slot by slot in that order, whatever stood before, are the full
/// outcomes, and the sorts.
pub fn evaluation_in_order_is_full()
    ensures no_cycle { (d : Document) (order : List Slot) → OrdersSlots d order → HasNoCycle d }
    ensures outcomes { (m : Meanings) (d : Document) (order : List Slot) (v w : Slot → Outcome)
        → OrdersSlots d order → EvaluatesAll (local m d) order v w → (s : Slot) → IsIn s (slots d) → full m d s ≡ w s }
    ensures sorts { (d : Document) (order : List Slot) (v w : Slot → SortOutcome)
        → OrdersSlots d order → EvaluatesAll (local_sort d) order v w → (s : Slot) → IsIn s (slots d) → sort d s ≡ w s }
{}

/// A document is valid exactly where it has no fault of any kind.
pub fn valid_documents_have_no_fault()
    ensures { (d : Document) → IsValid d ↔ HasNoFault d }
{}

/// In a valid document no slot depends on itself.
pub fn a_valid_document_has_no_cycle()
    ensures by_test { (d : Document) → IsValid d → HasNoCycle d }
    ensures by_chains { (d : Document) → IsValid d → Acyclic (deps d) (slots d) }
{}

/// In a valid document each outcome that is a value has the sort of its slot, where features and
/// placements give values of the sorts that they should, which they can. So in an expression of the
/// document no operation meets operands of a kind or a unit that it does not want: whatever it gave
/// on them, the outcome is the same.
pub fn outcomes_have_sorts()
    ensures of_sort { OutcomesHaveSorts }
    ensures no_wrong_operands { NoSlotHasWrongOperands }
    ensures can_be_met { SortsCanBeGiven }
    ensures together { PlacementsFaultTogether }
{}

/// Two VarSets of Floats that are bound in a chain have their outcomes, and so have VarSets in which
/// outcomes are faults.
pub fn numbers_work()
    ensures chain { (m : Meanings) → ChainWorks m }
    ensures faulted { (m : Meanings) → FaultedWorks m }
{}

/// A cycle, an unknown reference, sorts that do not fit, a value outside its type and a label that is
/// taken are each the first fault of a document.
pub fn first_faults_work()
    ensures { FirstFaultsWork }
{}

/// A sheet with an area and an alias, and links that inherit and override, have their outcomes; and
/// links have their first faults.
pub fn sheets_and_links_work()
    ensures sheet { (m : Meanings) → SheetWorks m }
    ensures links { (m : Meanings) → LinksWork m }
    ensures faults { LinkFaultsWork }
{}

/// Features and links to them have the outcomes of their input lists, and are called where these
/// have changed.
pub fn features_work()
    ensures { FeaturesWork }
{}

/// One more object, slot, node or dependency than a document may have is its first fault, and as many
/// as it may have are none.
pub fn limits_are_passed_by_one()
    ensures { (d : Document) → LimitsAreExact d }
{}

/// Where two faults meet, the kinds of faults come in their order; of unknown references those of an
/// object come in theirs.
pub fn faults_come_in_order()
    ensures kinds { KindsOfFaultsWork }
    ensures references { ReferenceFaultsWork }
    ensures sorts { SortFaultsWork }
{}

/// Compounds read the bounds of their members in order, entries differ by object, plan and values, a
/// property hides an alias of its name, a link stands after its target, and faults among the inputs of a
/// feature are its own.
pub fn members_and_names_work()
    ensures members { MembersWork }
    ensures entries { EntriesWork }
    ensures aliases { HiddenAliasesWork }
    ensures placements { PlacementsWork }
    ensures faulted { FaultedInputsWork }
{}

/// A new label that is good and free, for an object of any kind in a well-formed and valid document, changes
/// no outcome of any slot, and no dependency. No new label changes which slots there are.
pub fn relabellings_keep_outcomes()
    ensures outcomes { RelabellingsKeepOutcomes }
    ensures dependencies { RelabellingsKeepDependencies }
    ensures slots { RelabellingsKeepSlots }
{}
