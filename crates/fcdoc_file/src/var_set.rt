ghost use Rattle.std.specs.Prelude.{◌≡◌};

use fc_base::Name;
use quantities::Amount;

/// What has a name.
pub(crate) trait Named {
    ghost use Rattle.std.specs.Prelude.{List, ℕ};

    /// The name.
    ghost name: { Self → List ℕ };

    fn name(&self) -> &Name
        ensures { result.now ≡ name self.now };
}

/// A Float property with a value of its own.
#[derive(Drop)]
pub struct FloatProperty {
    pub name: Name,
    pub value: Amount,
}

impl Named for FloatProperty {
    ghost name = { λ p. p.name };

    fn name(&self) -> &Name
        ensures { result.now ≡ self.now.name }
    {
        &self.name
    }
}

/// A VarSet of Float properties, in order.
#[derive(Drop)]
pub struct VarSet {
    pub name: Name,
    pub properties: Vec<FloatProperty>,
}

impl Named for VarSet {
    ghost name = { λ o. o.name };

    fn name(&self) -> &Name
        ensures { result.now ≡ self.now.name }
    {
        &self.name
    }
}
