// Theorems that show that the rules say what they should.
ghost use Rattle.std.specs.Prelude.{◌≡◌, true};
ghost use Rattle.rules.specs.Theorems.{MakingSays, AlwaysStands, AnswersAsPageMap, AnswersDecided, EveryCallAnswered, KeepsPages, HasWhatRulesNeed};

// Answers that the theorems hold; its contract states them.
#[tactic(auto, using(crate::proofs::TheoremsHold::theorems))]
pub fn theorems_hold() -> bool
    ensures holds { result ≡ true }
    ensures making { MakingSays }
    ensures stands { AlwaysStands }
    ensures plain { AnswersAsPageMap }
    ensures decided { AnswersDecided }
    ensures answered { EveryCallAnswered }
    ensures kept { KeepsPages }
    ensures supplied { HasWhatRulesNeed }
{
    true
}
