// Which rule an accepted write took, with its number.
ghost use Rattle.std.specs.Prelude.{◌≡◌};
ghost use Rattle.rules.specs.Numbers.{kind_number};

#[derive(Clone, Copy, PartialEq, Eq, Debug)]
pub enum Kind {
    // The bytes were programmed.
    Stored = 0,
    // A page in use held equal bytes already, and is now referred to once more.
    Shared = 1,
    // The host page held equal bytes already.
    Unchanged = 2,
}

impl Kind {
    // The number that stands for the rule. Only an enum itself can be cast, so each has this line; by name, as `u8::from` would not say which number.
    pub fn number(self) -> u8
        ensures value { result ≡ kind_number self }
    {
        self as u8
    }
}
