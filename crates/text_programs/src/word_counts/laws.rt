//! Laws of words and their counts: functions that do nothing, each with a law as its contract.
ghost use Rattle.text_programs.specs.WordCounts.{CountIsOne};
ghost use Rattle.text_programs.specs.Joined.{CountsOfJoined, SumsOfCounts, WordsOfJoined};
ghost use Rattle.text_programs.specs.Sums.{OutputsAreRows, RowsAreDetermined, SumsOfOutputs};
ghost use Rattle.text_programs.specs.Words.{GapsAreNoWords, WordsAreRuns};

/// The words of a text are its longest runs of bytes that are no gaps, in order: every text is only gaps, or gaps, a
/// word, and then nothing or a gap and more.
pub fn words_are_the_longest_runs()
    ensures none { GapsAreNoWords }
    ensures first { WordsAreRuns }
{}

/// A list of words has one count, so what is written of a text is determined.
pub fn a_list_of_words_has_one_count()
    ensures { CountIsOne }
{}

/// The count of two texts, one after another with a gap between them, is the sum of their counts, and each such sum is
/// their count: the counts of parts of a text may be added in any order.
pub fn counts_of_joined()
    ensures words { WordsOfJoined }
    ensures counts { CountsOfJoined }
    ensures sums { SumsOfCounts }
{}

/// What is written of some texts, added up, is the count of these texts one after another: the lines that are written of a
/// text are those of its counts alone, and the sums of the counts of all texts are the count of all their words.
pub fn merged_outputs()
    ensures rows { OutputsAreRows }
    ensures determined { RowsAreDetermined }
    ensures sums { SumsOfOutputs }
{}
