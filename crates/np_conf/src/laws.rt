//! Laws of the definitions that the contracts of this crate cite. A function here does nothing:
//! its contract is the law.

ghost use Rattle.np_conf.specs.Answers.{AnswersAreUnique};
ghost use Rattle.np_conf.specs.Rules.{RulesAreSound};

/// Where the local rules of a confidentiality goal hold, no trajectory of any depth breaks the goal.
#[tactic(auto, using(crate::proofs::SoundLaws::rules_are_sound))]
pub fn rules_are_sound()
    ensures { RulesAreSound }
{}

/// No two answers are right on the same goal: that the rules hold excludes each failure, and the first failure is one.
#[tactic(auto, using(crate::proofs::AnswerLaws::answers_are_unique))]
pub fn answers_are_unique()
    ensures { AnswersAreUnique }
{}
