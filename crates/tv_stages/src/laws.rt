//! What is proved of the networks, from the definitions.
ghost use Rattle.tv_stages.specs.Laws.{HeightIsRight, OnlySwitchesMatter};
ghost use Rattle.tv_stages.specs.Settings.{SettingsAreRight};
ghost use Rattle.tv_stages.specs.Laws.{StagesPermute, SwitchesAreNumbered, SwitchesOfPowers};

/// The height is the number of bits of the last slot.
#[tactic(auto, using(crate::proofs::Heights::height_right))]
pub fn height_is_right()
    ensures { HeightIsRight }
{}

/// Whatever the bits, what comes out is a permutation of what goes in, and which item comes out
/// where does not depend on the items.
#[tactic(auto, using(crate::proofs::Reorders::permuted))]
pub fn stages_permute()
    ensures { StagesPermute }
{}

/// Every permutation of the slots has settings in either network, those of `settings_for`.
#[tactic(auto, using(crate::proofs::SettingsLaws::settings_right))]
pub fn settings_are_right()
    ensures { SettingsAreRight }
{}

/// No other bits and items matter than those of switches and slots.
#[tactic(auto, using(crate::proofs::Moves::only_switches))]
pub fn only_switches_matter()
    ensures { OnlySwitchesMatter }
{}

/// The switches of a stage have positions, each two slots of its own.
#[tactic(auto, using(crate::proofs::Numbers::switches_numbered))]
pub fn switches_are_numbered()
    ensures { SwitchesAreNumbered }
{}

/// Of 2^k slots there are as many switches as in Benes' and Waksman's networks.
#[tactic(auto, using(crate::proofs::Counts::of_powers))]
pub fn switches_of_powers()
    ensures { SwitchesOfPowers }
{}
