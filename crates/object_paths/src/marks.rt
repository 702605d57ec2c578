//! The marks `<<` and `>>`, between which labels and texts stand.
ghost use Rattle.std.specs.Prelude.{◌≡◌, MatchOption, None, Some, option_copied};
ghost use Rattle.object_paths.specs.PathParts.{opened, until_closing};

/// What follows the `<<` that a text begins with.
pub fn opened(text: &str) -> Option<&str>
    ensures { option_copied result ≡ opened text.now }
{
    text.strip_prefix("<<")
}

/// The text up to the first `>>`, and what follows it.
pub fn until_closing(text: &str) -> Option<(&str, &str)>
    ensures { MatchOption result (until_closing text.now ≡ None)
        (λ r. until_closing text.now ≡ Some (r.0.now, r.1.now)) }
{
    text.split_once(">>")
}
