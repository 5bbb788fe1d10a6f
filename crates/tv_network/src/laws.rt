//! What is proved of a network, from the definitions.
ghost use Rattle.tv_network.specs.Network.{NetworkFills, NetworkIsComplete, NetworkIsCounted};
ghost use Rattle.tv_network.specs.Network.{NetworkIsNormal, NetworkIsSound};

/// Where an assignment satisfies the constraints of a network, it has at the outputs the items sent
/// through by the bits at the switches' wires.
#[tactic(auto, using(crate::proofs::NetworkLaws::network_sound))]
pub fn network_is_sound()
    ensures { NetworkIsSound }
{}

/// Where an assignment has the values of a network for some bits and for the numbers of its items,
/// it satisfies the network's constraints, and has at the outputs these numbers sent through by
/// these bits.
#[tactic(auto, using(crate::proofs::NetworkLaws::network_complete))]
pub fn network_is_complete()
    ensures { NetworkIsComplete }
{}

/// Over items that are normal combinations of wires before the network's own, each combination that
/// it emits is normal.
#[tactic(auto, using(crate::proofs::NetworkLaws::network_normal))]
pub fn network_is_normal()
    ensures { NetworkIsNormal }
{}

/// A network costs a constraint for each wire that it makes: three a switch, two more a bound one,
/// and two a loose slot. Its terms are those of its switches and loose slots by their items, fewer
/// than 2^43.
#[tactic(auto, using(crate::proofs::NetworkLaws::network_counted))]
pub fn network_is_counted()
    ensures { NetworkIsCounted }
{}

/// A network returns its first wire and makes `network_wires` wires, with one value of the field
/// each where its items are of the field. Its outputs are wires of its own.
#[tactic(auto, using(crate::proofs::NetworkLaws::network_fills))]
pub fn network_fills()
    ensures { NetworkFills }
{}
