// A check and what is answered where it fails.
ghost use Rattle.std.specs.Prelude.{◌≡◌};
ghost use Rattle.dispatch.specs.Checks.{ensured};

// The error or the refusal, unless the test holds: `ensure(test, error)?` goes on only where it
// does.
pub fn ensure<E: Drop>(test: bool, error: E) -> Result<(), E>
    ensures { result ≡ ensured test error }
{
    if test { Ok(()) } else { Err(error) }
}
