//! What is proved of settings and permutations, from the definitions.
ghost use Rattle.tv_route.specs.Permutations.{RearrangedIsPermutation};
ghost use Rattle.tv_route.specs.Route.{RouteIsRight};

/// For every permutation, what goes through a network by its settings comes out as the permutation
/// says, and there is a bit for each switch.
#[tactic(auto, using(crate::proofs::RouteLaws::route_right))]
pub fn route_is_right()
    ensures { RouteIsRight }
{}

/// The numbers below a bound in another order, as after a sort, are a permutation.
pub fn rearranged_is_a_permutation()
    ensures { RearrangedIsPermutation }
{}
