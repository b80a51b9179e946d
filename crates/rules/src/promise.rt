// What is promised of whole lives: the same answers, the wear account, and one flash page for each content after a scan.
ghost use Rattle.std.specs.Prelude.{◌≡◌, true};
ghost use Rattle.rules.specs.Promise.{Promise};

// Answers that the promise is kept; its contract is the promise.
pub fn promise_is_kept() -> bool
    ensures holds { result ≡ true }
    ensures promise { Promise }
{
    true
}
