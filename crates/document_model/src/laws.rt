//! Laws of the definitions, each as the contract of a function with nothing to do.
ghost use Rattle.fc_base.specs.Graph.{Closed};
ghost use Rattle.document_model.specs.Dependencies.{deps};
ghost use Rattle.document_model.specs.Document.{Document};
ghost use Rattle.document_model.specs.Examples.{OneVarsetWorks};
ghost use Rattle.document_model.specs.FormKept.{
  NewObjectsAreWellFormed,
  NewPropertiesAreWellFormed,
  AddedObjectsKeepForm,
  RemovedObjectsKeepForm,
  AddedPropertiesKeepForm,
  RemovedPropertiesKeepForm,
  ChangedContentsKeepForm,
  RelabellingsKeepForm,
};
ghost use Rattle.document_model.specs.LinkedBox.{LinkedBoxWorks};
ghost use Rattle.document_model.specs.Slots.{slots};
ghost use Rattle.document_model.specs.WorkedForm.{CountsWork, EditsWork, KindsWork, TypesWork};
ghost use Rattle.document_model.specs.WorkedObjects.{IllFormedObjectsWork, IllFormedPartsWork, WellFormedObjectsWork};
ghost use Rattle.document_model.specs.WorkedRenames.{AliasRenamesWork, PropertyRenamesWork, RelabellingsWork};
ghost use Rattle.document_model.specs.WorkedRows.{CompoundsWork, RemovalsWork, SheetsWork, UnplacedWork};
ghost use Rattle.document_model.specs.WorkedText.{AttributesWork, ForeignPropertiesWork, PiecesWork, PlacesWork};

/// A document with one property has its slot, its rule and its path, and is well-formed.
pub fn one_varset_works()
    ensures { OneVarsetWorks }
{}

/// A document with a box, links to it and a sheet has its slots, rules, types and dependencies.
pub fn linked_box_works()
    ensures { LinkedBoxWorks }
{}

/// What depends on others depends on slots of the document alone, in every document.
pub fn dependencies_are_slots()
    ensures { (d : Document) → Closed (deps d) (slots d) }
{}

/// A new object of any kind is well-formed, and so is a new property of any type that may be added.
pub fn new_objects_are_well_formed()
    ensures objects { NewObjectsAreWellFormed }
    ensures properties { NewPropertiesAreWellFormed }
{}

/// A well-formed document stays so where an object or a property of a new name is added, where one is
/// removed, and where a content of a slot's type is put into the slot.
pub fn edits_keep_form()
    ensures object_added { AddedObjectsKeepForm }
    ensures object_removed { RemovedObjectsKeepForm }
    ensures property_added { AddedPropertiesKeepForm }
    ensures property_removed { RemovedPropertiesKeepForm }
    ensures content_changed { ChangedContentsKeepForm }
{}

/// Types have their kinds, new objects their first inputs, slots their types, and documents their
/// counts.
pub fn forms_work()
    ensures kinds { KindsWork }
    ensures edits { EditsWork }
    ensures counts { CountsWork }
    ensures types { TypesWork }
{}

/// Attributes and pieces of a document's text are kept where they are read again at their place, and
/// are not where they would be read as something else.
pub fn kept_text_works()
    ensures attributes { AttributesWork }
    ensures pieces { PiecesWork }
    ensures properties { ForeignPropertiesWork }
    ensures places { PlacesWork }
{}

/// Objects of each kind are well-formed, and others are not, each for one thing in it.
pub fn well_formed_objects_work()
    ensures well_formed { WellFormedObjectsWork }
    ensures objects { IllFormedObjectsWork }
    ensures parts { IllFormedPartsWork }
{}

/// Features that are not placed, compounds, sheets and links to them have their slots, paths and
/// dependencies, and removals take one thing out.
pub fn rows_work()
    ensures unplaced { UnplacedWork }
    ensures compounds { CompoundsWork }
    ensures sheets { SheetsWork }
    ensures removals { RemovalsWork }
{}

/// A new label, a new name of a property and a new alias are followed by the paths and the overrides that
/// have the old one for the same thing, and by nothing else.
pub fn renames_work()
    ensures labels { RelabellingsWork }
    ensures properties { PropertyRenamesWork }
    ensures aliases { AliasRenamesWork }
{}

/// A well-formed document stays so where an object of any kind gets another label.
pub fn relabellings_keep_form()
    ensures { RelabellingsKeepForm }
{}
