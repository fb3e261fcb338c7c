// The graded road of one record: the check of ACES numbers that a colourist changed, and a scene triple for them.

#![tactic(auto)]

ghost use Rattle.std.specs.Prelude.{◌≡◌, Ok};
ghost use Rattle.rules.specs.Setting.{ValidForAces};
ghost use Rattle.rules.specs.Graded.{graded_check, graded_checks};
ghost use Rattle.rules.specs.Calls.{GivesGraded};
ghost use Rattle.aces_inverse.specs.Inverse.{candidates};
ghost use Rattle.graded.specs.Graded.{reached, answer_result, to_scene_result};

use rules::{Aces, Refusal, Scenes, Setting, Triple};

// The graded numbers that are taken go from minus this to this.
const LIMIT: i64 = 1 << 38;

// Refusal 14.
#[tactic(auto, using(whole::proofs::Words::read_back_lem), unfolding(rules::specs::Graded::graded_check))]
fn check_number(a: Aces) -> Result<(), Refusal>
    ensures { result ≡ graded_check a.0 }
{
    setting::check_between(-LIMIT, a.0, LIMIT, Refusal::GradedOutOfRange)
}

// Of three numbers: red, then green, then blue.
#[tactic(auto, unfolding(rules::specs::Graded::graded_checks))]
pub fn check_triple(a: Triple) -> Result<(), Refusal>
    ensures { result ≡ graded_checks a }
{
    check_number(a.red)?;
    check_number(a.green)?;
    check_number(a.blue)
}

// The scene numbers for numbers that pass.
pub fn scenes_for(s: Setting, a: Triple) -> Scenes
    requires valid_for_aces { ValidForAces s }
    requires a_value { graded_checks a ≡ Ok tt }
    ensures { result ≡ candidates s a }
{
    aces_inverse::candidate(s, a.red, a.green, a.blue)
}

// The graded road of one record: three scene numbers whose ACES numbers are at most one unit from those given, or the refusal of the
// first check that fails: 3, 4, 5, 12, then 14.
#[tactic(auto, using(crate::proofs::Theorems::given_near), unfolding(crate::specs::Graded::to_scene_result))]
pub fn to_scene(s: Setting, a: Triple) -> Result<Scenes, Refusal>
    ensures result_value { answer_result result ≡ to_scene_result s a }
    ensures gives_graded { GivesGraded reached s a (answer_result result).values }
{
    setting::check_for_aces(s)?;
    check_triple(a)?;
    Ok(scenes_for(s, a))
}
