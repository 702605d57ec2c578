use fc_base::TextValue;
use property_types::SlotPlan;

/// The kind of an object, which follows from its type: App::VarSet, Spreadsheet::Sheet, App::Link,
/// the type of a feature, with the slots that the feature gives its objects, or any other type.
#[derive(Debug, Drop)]
pub enum ObjectKind {
    VarSet,
    Sheet,
    Link,
    Feature(SlotPlan),
    Foreign(TextValue),
}
