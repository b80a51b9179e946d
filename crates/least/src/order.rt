ghost use Rattle.std.specs.Prelude.{◌≡◌, Bool, true, false};

// A record kind with a total order: any two records compare, and comparing is transitive. Two different records may each be at most the other.
pub trait Order {
    // Whether the first record is at most the second.
    ghost at_most: { Self → Self → Bool };

    // Whether this record is at most the other.
    fn at_most(&self, other: &Self) -> bool
        ensures value { result ≡ at_most self.now other.now };

    // Any two compare: where the one is not at most the other, the other is at most the one.
    ghost total: { (x y : Self) → at_most x y ≡ false → at_most y x ≡ true };

    // What is at most a record is at most all that this record is at most.
    ghost transitive: { (x y z : Self) → at_most x y ≡ true → at_most y z ≡ true → at_most x z ≡ true };
}
