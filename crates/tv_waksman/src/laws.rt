//! What is proved of Waksman's network, from the definitions.
ghost use Rattle.tv_waksman.specs.Waksman.{ThroughWIsPermutation, NetworkWIsSound};
ghost use Rattle.tv_waksman.specs.Waksman.{NetworkWIsComplete};

use tv_benes::{network_is_complete, network_is_sound, through_is_a_permutation};

/// Whatever the bits, what comes out of Waksman's network is what went in, in another order.
pub fn through_w_is_a_permutation()
    ensures { ThroughWIsPermutation }
{
    through_is_a_permutation();
}

/// Where an assignment satisfies the constraints of `network_w`, it has 0 or 1 at each switch, and
/// at the outputs the inputs sent through by these bits.
pub fn network_w_is_sound()
    ensures { NetworkWIsSound }
{
    network_is_sound();
}

/// Where an assignment has the values that `fill_network_w` assigns for some bits, it satisfies the
/// constraints of `network_w`, and it has these bits at the switches, in order, and at the outputs
/// the inputs sent through by them.
pub fn network_w_is_complete()
    ensures { NetworkWIsComplete }
{
    network_is_complete();
}
