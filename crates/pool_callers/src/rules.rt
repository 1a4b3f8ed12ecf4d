//! Rules that a module keeps or breaks.
ghost use Rattle.std.specs.Prelude.{◌≡◌};
ghost use Rattle.pool_callers.specs.Rules.{unless_broken};

use pool_types::Unsupported;

// Refused exactly for the rule that is broken, if there is one.
pub(crate) fn unless_broken(rule: Option<Unsupported>) -> Result<(), Unsupported>
    ensures { result ≡ unless_broken rule }
{
    match rule {
        None => Ok(()),
        Some(rule) => Err(rule),
    }
}
