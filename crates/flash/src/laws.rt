// Laws of every part, stated once over what a part means.
ghost use Rattle.std.specs.Prelude.{◌≡◌, true};
ghost use Rattle.flash.specs.Laws.{Laws};

// Answers that the laws hold; its contract states them.
pub fn laws_hold() -> bool
    ensures holds { result ≡ true }
    ensures laws { Laws }
{
    true
}
