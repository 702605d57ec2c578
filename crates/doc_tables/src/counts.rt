ghost use Rattle.std.specs.Prelude.{◌≡◌, length, min, slice_get, IsSome};
ghost use Rattle.std.specs.Option.{option_map_or};
ghost use Rattle.expr_tree.specs.References.{references};
ghost use Rattle.document_model.specs.Counts.{dependencies_of_document, nodes_of_document};
ghost use Rattle.document_model.specs.Slots.{slots};
ghost use Rattle.doc_tables.specs.Counted.{dependencies_of_object, nodes_of_content, nodes_of_objects, nodes_of_properties, properties_of_objects, reached_count, reached_of_content, reached_of_properties};
ghost use Rattle.doc_tables.specs.Numbered.{name_at};

use crate::entry::{ObjectEntry, PropertyEntry};
use crate::reached::dependencies_in_objects;
use crate::tables::Tables;
use document_model::Content;
use expr_tree::{Argument, Expr, Node};
use fc_base::{Name, ObjectId};
use indexmap::IndexMap;

/// The nodes of an expression, at most `u32::MAX`.
fn nodes_of_content(content: &Content) -> u32
    ensures { result ≡ min (nodes_of_content content.now) u32.MAX }
{
    match content {
        Content::Own(_) => 0,
        Content::Bound(tree) => tree.node_count(),
    }
}

/// The nodes of the expressions of properties, at most `u32::MAX`.
fn nodes_of_properties(properties: &IndexMap<Name, PropertyEntry>) -> u32
    ensures { result ≡ min (nodes_of_properties properties.now.entries) u32.MAX }
{
    let mut count: u32 = 0;
    for (_, entry) in properties {
        count = count.saturating_add(nodes_of_content(&entry.content));
    }
    count
}

/// The nodes of the expressions of objects, at most `u32::MAX`.
fn nodes_of_objects(objects: &IndexMap<Name, ObjectEntry>) -> u32
    ensures { result ≡ min (nodes_of_objects objects.now.entries) u32.MAX }
{
    let mut count: u32 = 0;
    for (_, object) in objects {
        count = count.saturating_add(nodes_of_properties(&object.properties));
    }
    count
}

/// The properties of objects, at most `u64::MAX`.
fn properties_of_objects(objects: &IndexMap<Name, ObjectEntry>) -> u64
    ensures { result ≡ min (properties_of_objects objects.now.entries) u64.MAX }
{
    let mut count: u64 = 0;
    for (_, object) in objects {
        count = count.saturating_add(object.properties.len() as u64);
    }
    count
}

impl Tables {
    /// The number of objects.
    pub fn object_count(&self) -> u32
        ensures { result ≡ length self.now.document.objects }
    {
        self.objects.len() as u32
    }

    /// The number of slots. The objects are visited.
    pub fn slot_count(&self) -> u32
        ensures { result ≡ length (slots self.now.document) }
    {
        properties_of_objects(&self.objects) as u32
    }

    /// The number of nodes of all expressions; `u32::MAX` where there are more. Each node is visited.
    pub fn node_count(&self) -> u32
        ensures { result ≡ min (nodes_of_document self.now.document) u32.MAX }
    {
        nodes_of_objects(&self.objects)
    }

    /// How many references of an object's expression name a slot, at most `u64::MAX`.
    fn reached_in(&self, owner: ObjectId, tree: &Expr) -> u64
        requires { IsSome (name_at self.now owner.0) }
        ensures { result ≡ min (reached_count self.now owner.0 (references tree.now)) u64.MAX }
    {
        match &tree.node {
            Node::Literal(_, _) | Node::UnitOne(_) | Node::Flag(_) | Node::Text(_) => 0,
            Node::Path(path) => match self.resolve(owner, path) {
                Some(_) => 1,
                None => 0,
            },
            Node::Negate(a) => self.reached_in(owner, a),
            Node::Binary(_, a, b) => {
                let left = self.reached_in(owner, a);
                left.saturating_add(self.reached_in(owner, b))
            }
            Node::Power(a, _) => self.reached_in(owner, a),
            Node::Compare(_, a, b) => {
                let left = self.reached_in(owner, a);
                left.saturating_add(self.reached_in(owner, b))
            }
            Node::Conditional(c, a, b) => {
                let condition = self.reached_in(owner, c);
                let first = self.reached_in(owner, a);
                let second = self.reached_in(owner, b);
                condition.saturating_add(first).saturating_add(second)
            }
            Node::Function(_, a) => self.reached_in(owner, a),
            Node::Modulo(a, b) => {
                let left = self.reached_in(owner, a);
                left.saturating_add(self.reached_in(owner, b))
            }
            Node::Aggregate(_, all) => {
                let mut count: u64 = 0;
                for argument in all {
                    if let Argument::Tree(tree) = argument {
                        count = count.saturating_add(self.reached_in(owner, tree));
                    }
                }
                count
            }
        }
    }

    /// The same of what stands in a slot.
    fn reached_of_content(&self, owner: ObjectId, content: &Content) -> u64
        requires { IsSome (name_at self.now owner.0) }
        ensures { result ≡ min (reached_of_content self.now owner.0 content.now) u64.MAX }
    {
        match content {
            Content::Own(_) => 0,
            Content::Bound(tree) => self.reached_in(owner, tree),
        }
    }

    /// The same of properties.
    fn reached_of_properties(
        &self,
        owner: ObjectId,
        properties: &IndexMap<Name, PropertyEntry>,
    ) -> u64
        requires { IsSome (name_at self.now owner.0) }
        ensures { result ≡ min (reached_of_properties self.now owner.0 properties.now.entries) u64.MAX }
    {
        let mut count: u64 = 0;
        for (_, entry) in properties {
            count = count.saturating_add(self.reached_of_content(owner, &entry.content));
        }
        count
    }

    /// The dependencies of the slots of the object at a place, at most `u64::MAX`.
    fn dependencies_of_object(&self, place: u32) -> u64
        ensures { result ≡ min (option_map_or (dependencies_of_object self.now.document) (slice_get self.now.document.objects place) 0) u64.MAX }
    {
        match self.objects.get_index(place as usize) {
            Some((_, entry)) => self.reached_of_properties(entry.number, &entry.properties),
            None => 0,
        }
    }

    /// The same of all slots, each reference resolved.
    fn resolved_count(&self) -> u64
        ensures { result ≡ min (dependencies_of_document self.now.document) u64.MAX }
    {
        let mut count: u64 = 0;
        for place in 0..self.object_count() {
            count = count.saturating_add(self.dependencies_of_object(place));
        }
        count
    }

    /// The number of dependencies of all slots, each counted as often as it stands; `u64::MAX` where
    /// there are more. Each reference is visited, and resolved unless `resolve_references` did that.
    pub fn dependency_count(&self) -> u64
        ensures { result ≡ min (dependencies_of_document self.now.document) u64.MAX }
    {
        match &self.reached {
            Some(lists) => dependencies_in_objects(&self.objects, lists),
            None => self.resolved_count(),
        }
    }
}
