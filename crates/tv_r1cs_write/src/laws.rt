//! What is proved of files, from the definitions.
ghost use Rattle.tv_r1cs_write.specs.Laws.{FilesAreFronts, FilesAreOfSystems, FilesAreWhole};
ghost use Rattle.tv_r1cs_write.specs.Laws.{SystemsComeBack};

/// Where the counts passed at the beginning are those of the list, the file is that of a system.
#[tactic(auto, using(crate::proofs::Files::files_of_systems))]
pub fn files_are_of_systems()
    ensures { FilesAreOfSystems }
{}

/// Before it is finished, and where it is refused, a file is a first part of the file of each list
/// that begins with the constraints put so far.
#[tactic(auto, using(crate::proofs::Files::files_are_fronts))]
pub fn files_are_fronts()
    ensures { FilesAreFronts }
{}

/// From before `begin` to after `finish` the file is the only thing that changed.
#[tactic(auto, using(crate::proofs::Files::files_are_whole))]
pub fn files_are_whole()
    ensures { FilesAreWhole }
{}

/// What is written is read back: `r1cs_system` of the bytes of a system that the format can hold is
/// that system.
#[tactic(auto, using(crate::proofs::Systems::systems_come_back))]
pub fn systems_come_back()
    ensures { SystemsComeBack }
{}
