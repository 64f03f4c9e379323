//! Laws of the definitions. Each function does nothing: its contract is the law.
ghost use Rattle.set_document.specs.Laws.{RunsAreTheRanges, RowsAreFewest, AnswersReadBack, TruthChangesAtCuts, RunCutsAreLiteral, FewRanges, FewRows};

/// The maximal runs of the numbers that pass a test are the one canonical list of ranges that holds
/// just those numbers. A line's runs are those of its truth.
pub fn runs_are_the_ranges()
    ensures { RunsAreTheRanges }
{}

/// A text of comments alone, or the empty text, has one row, of every number, and no name. The rows
/// of each text cut all numbers where the names that hold change, so neighbours differ in their
/// names. And they are the fewest: no list of ranges that covers every number in order, without gap
/// or overlap, and has the same names throughout each range, is shorter.
pub fn fewest_rows()
    ensures { RowsAreFewest }
{}

/// The answer to a text is itself a text without a fault, and its answer is itself: its lists are
/// read again as the same sets, and its rows are comments.
pub fn answer_reads_back()
    ensures { AnswersReadBack }
{}

/// What the lines of a text give changes only at the cuts of its numbers and ranges, each taken
/// alone: at every other number a line gives what it gives at the number before. This holds of
/// every text, also of one with a fault, and through the names of earlier lines.
pub fn truth_changes_at_cuts()
    ensures { TruthChangesAtCuts }
{}

/// Each cut of the runs of a line is the least number, or a cut of a number or range of the text.
pub fn run_cuts_are_literal()
    ensures { RunCutsAreLiteral }
{}

/// With n number and range words in a text no line has more than n + 1 ranges.
pub fn few_ranges()
    ensures { FewRanges }
{}

/// With n number and range words in a text there are at most 2n + 1 rows.
pub fn few_rows()
    ensures { FewRows }
{}
