use fc_base::SlotId;

/// What gives a slot its outcome.
#[derive(Clone, Copy, Debug, PartialEq, Eq)]
pub enum Rule {
    /// A value of its own.
    Own,
    /// An expression.
    Bound,
    /// The slot of the same name of a link's target.
    Inherit(SlotId),
    /// A part of a placement as it stands in the document.
    Global,
    /// An output of a feature, by its number.
    Output(u32),
}
