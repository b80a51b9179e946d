ghost use Rattle.std.specs.Prelude.{◌≡◌, [], ◌∷◌};
ghost use Rattle.fingerprint.specs.Sample.{sample_of};
ghost use Rattle.fingerprint.specs.Fletcher.{fletcher_of};
ghost use Rattle.fingerprint.specs.Examples.{Fit, Worked, one_in_last_word, starts_with_one, starts_with_two_full, zeros};

// The numbers of the worked examples: Fletcher's of the page of zeros, of the one that begins 255, 255, of the one that begins with 1 and of the one
// whose byte 254 alone is 1, and Sample's of the page that begins with 1.
#[tactic(auto, using(crate::proofs::Bounds::fletcher_fits, crate::proofs::Bounds::sample_fits))]
pub fn worked_examples() -> [u32; 5]
    ensures numbers { result ≡ fletcher_of zeros ∷ fletcher_of starts_with_two_full ∷ fletcher_of starts_with_one ∷ fletcher_of one_in_last_word ∷ sample_of starts_with_one ∷ [] }
    ensures table { Worked }
    ensures fit { Fit }
{
    [0, 0, 8_388_609, 65_537, 16_777_216]
}
