//! Laws of trees, each as the contract of a function with nothing to do.
ghost use Rattle.expr_tree.specs.Numbered.{NumbersDontMatter};
ghost use Rattle.expr_tree.specs.References.{ReferencesAreCounted, ReferencesAreChanged};

/// The references of a tree are as many as are counted, so their numbers begin at 0 and leave none
/// out.
pub fn references_are_counted()
    ensures { ReferencesAreCounted }
{}

/// Where each path and each area of a tree is changed, its references are the changed ones, in
/// their order.
pub fn references_are_changed()
    ensures { ReferencesAreChanged }
{}

/// Where references are changed by number, and the change does not look at the number, all are
/// changed alike.
pub fn numbers_dont_matter()
    ensures { NumbersDontMatter }
{}
