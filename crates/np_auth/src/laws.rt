//! Laws of the definitions that the contracts of this crate cite. A function here does nothing:
//! its contract is the law.

ghost use Rattle.np_auth.specs.Answers.{AnswersAreUnique};
ghost use Rattle.np_auth.specs.Rules.{RulesAreSound};

/// Where the local rules hold, no packet of the goal gets to its area but from the other one, however long its way is and
/// whatever untrusted places do without keys.
#[tactic(auto, using(crate::proofs::SoundLaws::rules_are_sound))]
pub fn rules_are_sound()
    ensures { RulesAreSound }
{}

/// The rules determine the answer. So it is yes exactly where they hold, and no exactly where one of them doesn't.
#[tactic(auto, using(crate::proofs::AnswerLaws::answers_are_unique))]
pub fn answers_are_unique()
    ensures { AnswersAreUnique }
{}
