//! What was written is read, and what a file is on the way.

ghost use Rattle.tv_wtns.specs.Laws.{AssignmentsComeBack, FilesAreFronts, FilesAreOfAssignments};

/// What is written is read: `assignment_of` the bytes of numbers of the field is these numbers.
#[tactic(auto, using(crate::proofs::Files::come_back))]
pub fn assignments_come_back()
    ensures { AssignmentsComeBack }
{}

/// Where the count passed at the beginning is that of the values, the file is that of an
/// assignment.
#[tactic(auto, using(crate::proofs::Files::files_of_assignments))]
pub fn files_are_of_assignments()
    ensures { FilesAreOfAssignments }
{}

/// Before it is finished, and where it is refused, a file is a first part of the file of each list
/// that begins with the values passed so far.
#[tactic(auto, using(crate::proofs::Files::files_are_fronts))]
pub fn files_are_fronts()
    ensures { FilesAreFronts }
{}
