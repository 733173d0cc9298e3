//! What holds of every container, as theorems.

ghost use Rattle.dx_container.specs.Laws.{AtMostOneContent, AtMostOneFault, ContainedHasNoFault, WrittenIsContained};

/// Bytes contain at most one bitcode, in one version.
pub fn at_most_one_content()
    ensures { AtMostOneContent }
{}

/// What `pack` writes contains the bitcode that it was written from.
pub fn written_is_contained()
    ensures { WrittenIsContained }
{}

/// Bytes that contain a bitcode have no first fault.
pub fn contained_has_no_fault()
    ensures { ContainedHasNoFault }
{}

/// Bytes have at most one first fault.
pub fn at_most_one_fault()
    ensures { AtMostOneFault }
{}
