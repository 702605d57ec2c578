ghost use Rattle.std.specs.Prelude.{◌≡◌, IfOk, IsSome, false};
ghost use Rattle.std.specs.Option.{option_map_or};
ghost use Rattle.document_model.specs.Slots.{slots};
ghost use Rattle.document_outcomes.specs.Faults.{limit_faults};
ghost use Rattle.document_outcomes.specs.Limits.{has_too_large, has_too_many};
ghost use Rattle.expr_grammar.specs.Large.{is_too_large};
ghost use Rattle.doc_tables.specs.Accessors.{AreNumbersOf, tree_at};
ghost use Rattle.doc_tables.specs.Numbered.{slot_at};
ghost use Rattle.doc_rules.specs.Found.{MeetsFault};

use crate::fault::{CheckFault, DocFault};
use crate::numbers::TOO_MANY;
use doc_tables::Tables;
use doc_tables::limits::{MOST_DEPENDENCIES, MOST_NODES, MOST_OBJECTS, MOST_SLOTS};
use expr_grammar::is_too_large;
use fc_base::{SlotId, TextValue};
use std::alloc::{AllocError, Global};

/// Whether the document passes a limit other than that of one expression.
fn has_too_many(tables: &Tables) -> bool
    ensures { result ≡ has_too_many tables.now.document }
{
    tables.holds_var_sets(); // for the proof
    let objects = tables.object_count() > MOST_OBJECTS;
    let slots = tables.slot_count() > MOST_SLOTS;
    let nodes = tables.node_count() > MOST_NODES;
    let dependencies = tables.dependency_count() > MOST_DEPENDENCIES;
    objects || slots || nodes || dependencies
}

/// Whether the expression of a slot is too large; it is not where there is none. It is copied and
/// printed for this.
fn has_large_tree(alloc: Global, tables: &Tables, slot: SlotId) -> Result<bool, AllocError>
    requires { IsSome (slot_at tables.now slot.0) }
    ensures { IfOk result (λ large. large ≡ option_map_or is_too_large (tree_at tables.now slot.0) false) }
{
    match tables.bound_of(alloc, slot)? {
        Some(tree) => is_too_large(alloc, &tree),
        None => Ok(false),
    }
}

/// Whether an expression of the document is too large.
fn has_too_large(alloc: Global, tables: &Tables, listed: &[SlotId]) -> Result<bool, AllocError>
    requires { AreNumbersOf tables.now listed.now (slots tables.now.document) }
    ensures { IfOk result (λ large. large ≡ has_too_large tables.now.document) }
{
    tables.holds_var_sets(); // for the proof
    for slot in listed {
        if has_large_tree(alloc, tables, *slot)? {
            return Ok(true);
        }
    }
    Ok(false)
}

/// TooMany, where the document has more objects, slots, nodes or dependencies than a document may
/// have, or an expression that is too large.
pub fn check_limits(alloc: Global, tables: &Tables, listed: &[SlotId]) -> Result<(), CheckFault>
    requires { AreNumbersOf tables.now listed.now (slots tables.now.document) }
    ensures { MeetsFault (limit_faults tables.now.document) result }
{
    if has_too_many(tables) || has_too_large(alloc, tables, listed).map_err(CheckFault::Memory)? {
        return Err(CheckFault::Doc(DocFault {
            number: TOO_MANY,
            subject: TextValue::of(String::new(alloc)),
        }));
    }
    Ok(())
}
