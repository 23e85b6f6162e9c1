//! The laws of printing, each the contract of a function that does nothing.

ghost use Rattle.smt_print.specs.Laws.{PrintingReadsBack};

/// The text of printable commands is read back, in both layouts: it is accepted, it has the same checks with the same
/// sorts and symbols live at each, and each assertion and each literal that is read there means in every model what the
/// printed term values to.
pub fn printing_reads_back()
    ensures { PrintingReadsBack }
{}
