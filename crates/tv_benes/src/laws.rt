//! What is proved of networks, from the definitions.
ghost use Rattle.tv_benes.specs.Network.{NetworkIsSound, NetworkIsComplete, NetworkIsNormal};
ghost use Rattle.tv_benes.specs.Network.{NetworkFills};
ghost use Rattle.tv_benes.specs.Through.{NumbersArePermuted, PairsArePermuted};
ghost use Rattle.tv_benes.specs.Through.{PlacesDetermineOutputs};

/// Whatever the bits, the outputs of a network are a permutation of its inputs.
#[tactic(auto, using(crate::proofs::Permutations::permuted))]
pub fn through_is_a_permutation()
    ensures numbers { NumbersArePermuted }
    ensures pairs { PairsArePermuted }
{}

/// The bits alone determine which item comes out at a place.
#[tactic(auto, using(crate::proofs::ThroughLaws::through_by_places))]
pub fn places_determine_outputs()
    ensures { PlacesDetermineOutputs }
{}

/// Where an assignment satisfies the constraints of a network, it has 0 or 1 at each switch, and at
/// the outputs the inputs sent through by these bits.
#[tactic(auto, using(crate::proofs::NetworkLaws::network_sound))]
pub fn network_is_sound()
    ensures { NetworkIsSound }
{}

/// Where an assignment has the values of a network for some bits and for the numbers of its inputs,
/// it satisfies the network's constraints, it has these bits at the switches, in order, and at the
/// outputs these numbers sent through by them.
pub fn network_is_complete()
    ensures { NetworkIsComplete }
{}

/// Over items that are normal combinations of wires before the network's own, each combination that
/// it emits is normal.
#[tactic(auto, using(crate::proofs::NormalLaws::network_normal))]
pub fn network_is_normal()
    ensures { NetworkIsNormal }
{}

/// A network makes five wires a switch, with one value each; its outputs are among them; and its
/// values are numbers of the field where its inputs are.
#[tactic(auto, using(crate::proofs::Sizes::network_sizes))]
pub fn network_fills()
    ensures { NetworkFills }
{}
