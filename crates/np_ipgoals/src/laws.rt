//! Laws of what the other modules' contracts speak of. A function here does nothing: its contract is the law.

ghost use Rattle.np_ipgoals.specs.Respecting.{IpsecTestsAreRespected, LeastsServeTheChecks};
ghost use Rattle.np_ipgoals.specs.Existence.{HaveAuthAnswers, HaveConfAnswers};

/// Valid headers that the cuts of the IPsec part don't tell apart are the same to the rules of every interface, to every goal and
/// to every area.
#[tactic(auto, using(crate::proofs::RespectLaws::tests_are_respected))]
pub fn ipsec_cuts_are_respected()
    ensures { IpsecTestsAreRespected }
{}

/// So the least headers of the classes of these cuts are those that the checks of authentication and of confidentiality goals ask for.
#[tactic(auto, using(crate::proofs::RespectLaws::leasts_serve))]
pub fn leasts_serve_the_checks()
    ensures { LeastsServeTheChecks }
{}

/// Whatever the tables say, each authentication goal has an answer.
#[tactic(auto, using(crate::proofs::AuthAnswers::have_auth_answers))]
pub fn each_auth_goal_has_an_answer()
    ensures { HaveAuthAnswers }
{}

/// Whatever the tables say, each confidentiality goal has an answer.
#[tactic(auto, using(crate::proofs::ConfAnswers::have_conf_answers))]
pub fn each_conf_goal_has_an_answer()
    ensures { HaveConfAnswers }
{}
