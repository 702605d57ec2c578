ghost use Rattle.std.specs.Prelude.{◌≡◌};
ghost use Rattle.expr_tree.specs.Functions.{function_name, function_named, aggregate_name, aggregate_named, is_function_name};

/// A function of one number: `abs`, `ceil`, `floor`, `round`, `trunc`.
#[derive(Clone, Copy, Debug, PartialEq, Eq)]
pub enum FunctionOp {
    Abs,
    Ceil,
    Floor,
    Round,
    Trunc,
}

/// A function of many numbers: `sum`, `average`, `count`, `min`, `max`.
#[derive(Clone, Copy, Debug, PartialEq, Eq)]
pub enum AggregateOp {
    Sum,
    Average,
    Count,
    Min,
    Max,
}

impl FunctionOp {
    /// The function of one number that has the name.
    pub fn named(name: &str) -> Option<FunctionOp>
        ensures { result ≡ function_named name.now }
    {
        match name {
            "abs" => Some(FunctionOp::Abs),
            "ceil" => Some(FunctionOp::Ceil),
            "floor" => Some(FunctionOp::Floor),
            "round" => Some(FunctionOp::Round),
            "trunc" => Some(FunctionOp::Trunc),
            _ => None,
        }
    }

    /// Its name.
    pub fn name(self) -> &'static str
        ensures { result.now ≡ function_name self }
    {
        match self {
            FunctionOp::Abs => "abs",
            FunctionOp::Ceil => "ceil",
            FunctionOp::Floor => "floor",
            FunctionOp::Round => "round",
            FunctionOp::Trunc => "trunc",
        }
    }
}

impl AggregateOp {
    /// The function of many numbers that has the name.
    pub fn named(name: &str) -> Option<AggregateOp>
        ensures { result ≡ aggregate_named name.now }
    {
        match name {
            "sum" => Some(AggregateOp::Sum),
            "average" => Some(AggregateOp::Average),
            "count" => Some(AggregateOp::Count),
            "min" => Some(AggregateOp::Min),
            "max" => Some(AggregateOp::Max),
            _ => None,
        }
    }

    /// Its name.
    pub fn name(self) -> &'static str
        ensures { result.now ≡ aggregate_name self }
    {
        match self {
            AggregateOp::Sum => "sum",
            AggregateOp::Average => "average",
            AggregateOp::Count => "count",
            AggregateOp::Min => "min",
            AggregateOp::Max => "max",
        }
    }
}

/// Whether a function has the name.
#[tactic(auto, unfolding(crate::specs::Functions::is_function_name))]
pub fn is_function_name(name: &str) -> bool
    ensures { result ≡ is_function_name name.now }
{
    FunctionOp::named(name).is_some() || name == "mod" || AggregateOp::named(name).is_some()
}
