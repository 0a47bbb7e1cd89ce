//! The laws of a report: each is the contract of a function that does nothing.

ghost use Rattle.pef_report.specs.EdgeLaw.{EdgesAreWritten};

/// A report with numbers of two and three digits, with a value whose highest byte alone isn't zero, and with the first and the
/// last normal frame, computed from the definitions.
pub fn edges_are_written()
    ensures { EdgesAreWritten }
{}
