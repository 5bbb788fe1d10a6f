//! Laws of honest lines, without circuits.
ghost use Rattle.tv_lines.specs.Ordered.{OrderedLinesAreHonest, SortedLinesAreOrdered};

/// Lines in time order are honest where the same lines, in some other order, are in address order.
pub fn ordered_lines_are_honest()
    ensures { OrderedLinesAreHonest }
{}

/// Honest lines in time order, sorted by cell and time, are in address order.
pub fn sorted_lines_are_ordered()
    ensures { SortedLinesAreOrdered }
{}
