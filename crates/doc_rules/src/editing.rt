ghost use Rattle.std.specs.Prelude.{◌≡◌, [], Err, IsTrue, OnOk, is_some};
ghost use Rattle.std.specs.Option.{ForSome};
ghost use Rattle.document_outcomes.specs.Faults.{IsValid};
ghost use Rattle.document_outcomes.specs.Typed.{no_features};
ghost use Rattle.doc_rules.specs.Edits.{Becomes, HasFullOutcomes, IsNamed, MeetsEdit, edited, is_built, made};
ghost use Rattle.doc_rules.specs.declared.edit_fault.EditFault.TheVariants.{Refused};
ghost use Rattle.doc_rules.specs.declared.refusal.Refusal.{Refusal};

use crate::accepting::refused;
use crate::commanded::{object_of, slot_commanded};
use crate::edit::Edit;
use crate::edit_fault::EditFault;
use crate::numbers::NOT_BUILT;
use crate::object_edits::{deleted, with_new};
use crate::property_edits::{dropped, with_added};
use crate::slot_edits::{unbound, with_binding, with_value};
use doc_tables::Tables;
use property_types::Outcomes;
use std::alloc::Global;

/// Whether an edit is built, but for the commands that are not built at all.
fn is_built(edit: &Edit) -> bool
    ensures { result ≡ is_built edit.now }
{
    match edit {
        Edit::New { type_name, .. } => {
            !matches!(type_name.as_str(), "Spreadsheet::Sheet" | "App::Link")
        }
        Edit::Add { type_name, .. } => type_name.as_str() != "App::PropertyPlacement",
        _ => true,
    }
}

/// A copy of the tables after an edit that is built.
fn made<O: Outcomes>(
    alloc: Global,
    tables: &Tables,
    edit: &Edit,
    clean: Option<&O>,
) -> Result<Tables, EditFault>
    requires valid { IsValid tables.now.document }
    requires built { IsTrue (is_built edit.now) }
    requires known { ForSome clean (λ kept. HasFullOutcomes no_features tables.now (O.outcomes kept.now)) }
    ensures { Becomes tables.now (made [] no_features (is_some clean.entry) tables.now.document edit.now) result }
{
    match edit {
        Edit::New { type_name, name } => {
            with_new(alloc, tables, type_name.as_str(), name.as_str())
        }
        Edit::Delete { name } => match object_of(tables, name.as_str()) {
            Ok(object) => deleted(alloc, tables, object),
            Err(refusal) => Err(EditFault::Refused(refusal)),
        },
        Edit::Add {
            owner,
            type_name,
            name,
        } => match object_of(tables, owner.as_str()) {
            Ok(owner) => with_added(alloc, tables, owner, type_name.as_str(), name.as_str()),
            Err(refusal) => Err(EditFault::Refused(refusal)),
        },
        Edit::DropProperty { path } => dropped(alloc, tables, path),
        Edit::SetValue { path, expr } => match slot_commanded(tables, path) {
            Ok(slot) => with_value(alloc, tables, slot, expr.as_str()),
            Err(refusal) => Err(EditFault::Refused(refusal)),
        },
        Edit::Bind { path, expr } => match slot_commanded(tables, path) {
            Ok(slot) => with_binding(alloc, tables, slot, expr.as_str()),
            Err(refusal) => Err(EditFault::Refused(refusal)),
        },
        Edit::Unbind { path } => match slot_commanded(tables, path) {
            Ok(slot) => unbound(alloc, tables, slot, clean),
            Err(refusal) => Err(EditFault::Refused(refusal)),
        },
        _ => Err(refused(NOT_BUILT)),
    }
}

/// A copy of the tables after an edit.
#[tactic(auto, unfolding(crate::specs::Edits::edited))]
fn edited<O: Outcomes>(
    alloc: Global,
    tables: &Tables,
    edit: &Edit,
    clean: Option<&O>,
) -> Result<Tables, EditFault>
    requires valid { IsValid tables.now.document }
    requires known { ForSome clean (λ kept. HasFullOutcomes no_features tables.now (O.outcomes kept.now)) }
    ensures { Becomes tables.now (edited [] no_features (is_some clean.entry) tables.now.document edit.now) result }
{
    if is_built(edit) {
        made(alloc, tables, edit, clean)
    } else {
        Err(refused(NOT_BUILT))
    }
}

/// Makes an edit, and answers how many references were written anew.
///
/// Its refusals come in this order: NoObject (2) and NoProperty (3) where its path names no object or
/// no slot; ExprSyntax (11) where the text is no expression, with the place, or no closed one where
/// the slot is set; UnitMismatch, KindMismatch and ExponentRange (15 to 17) where the value has no
/// sort that the slot takes, and OutOfRange (10) where it is outside the slot's type; then the first
/// fault of the edited document, with its subject. A refused edit changes nothing.
///
/// The edit is made in a copy, and the whole copy is checked, so an edit costs as much as the
/// document is large; see `check`.
///
/// `clean` has the outcomes of a document that was recomputed since its last edit; of any other there
/// are none. The two edits of today do not look at it.
pub fn apply_edit<O: Outcomes>(
    alloc: Global,
    tables: &mut Tables,
    edit: &Edit,
    clean: Option<&O>,
) -> Result<u64, EditFault>
    requires valid { IsValid tables.old.document }
    requires known { ForSome clean (λ kept. HasFullOutcomes no_features tables.old (O.outcomes kept.now)) }
    ensures exact { MeetsEdit tables.old tables.new (edited [] no_features (is_some clean.entry) tables.old.document edit.now) result }
    ensures valid { OnOk result (IsValid tables.new.document) }
    ensures named { (r : Refusal) → result ≡ Err (Refused r) → IsNamed r }
{
    let edited = edited(alloc, tables, edit, clean)?;
    *tables = edited;
    Ok(0)
}
