//! Laws of the texts, each the contract of a function that does nothing.
ghost use Rattle.ucq_print.specs.Laws.{AnsweredTextTellsUnion, BeginningTellsUnion, ComparingLinesStandApart, CountedLinesAreTold, FinishedTextTellsUnion, HeaderIsLine, HeaderTells, HeadersAreNoAnswers, InputLabelsAreLines, InputNamesAreHeld, InputNamesAreReadable, LinesAreTold, MadeNamesAreHeld, RowsCutTextTellsRows, SectionsAreTold, StoredArePrintable, TextsAreSections, TextsDiffer, WholeLinesAreTold, WideCutTextTellsRows};

/// Lines without inner line feeds are told from their join, and what follows too.
pub fn lines_are_told()
    ensures told { LinesAreTold }
    ensures counted { CountedLinesAreTold }
    ensures whole { WholeLinesAreTold }
{}

/// The finished text tells the union, up to the variables' names in each query.
pub fn finished_text_tells_union()
    ensures { FinishedTextTellsUnion }
{}

/// So does any text that begins with a finished text, as the text of a union with its answers: it tells the union.
pub fn beginning_tells_union()
    ensures { BeginningTellsUnion }
{}

/// Any text that begins with the text of a union with its answers tells both, and what follows.
pub fn answered_text_tells_union()
    ensures { AnsweredTextTellsUnion }
{}

/// Any text that begins with the text of a cut tells the cut: at a budget the budget, the rows and the core that is left, at a
/// rewriting that is too wide its row, its rule and the rows, up to the variables' names in each query; and what follows. After
/// a wide cut what follows must not begin as the line of a row does, for no line says how many rows there are.
pub fn cut_text_tells_rows()
    ensures rows { RowsCutTextTellsRows }
    ensures wide { WideCutTextTellsRows }
{}

/// How a text begins tells whether it is a finished one, a cut at a budget, or a wide cut.
pub fn texts_differ()
    ensures { TextsDiffer }
{}

/// The header of a section tells its query's number and label; where the label has no line feed, it is a line.
pub fn header_tells()
    ensures tells { HeaderTells }
    ensures line { HeaderIsLine }
{}

/// A header that stands behind whole lines in a text of sections is the header of one of them, and what follows begins with its
/// lines and goes on with the later sections. For no line of a union, of its answers or of a cut begins as a header does, and
/// neither does one that compares queries or rules. So what follows a union's lines, where no answers were asked for, is never
/// taken for answers.
pub fn sections_are_told()
    ensures told { SectionsAreTold }
    ensures texts { TextsAreSections }
    ensures apart { HeadersAreNoAnswers }
    ensures comparing { ComparingLinesStandApart }
{}

/// The names of what files stand for are such that the finished text tells the union.
pub fn input_names_are_readable()
    ensures { InputNamesAreReadable }
{}

/// No label of what files stand for has a line feed, so that each header is a line.
pub fn input_labels_are_lines()
    ensures { InputLabelsAreLines }
{}

/// Every stored query whose predicates and constants have names is such.
pub fn stored_are_printable()
    ensures { StoredArePrintable }
{}

/// Every predicate and constant of the rules, of the queries and of the facts that files stand for has a name, and so has
/// each of an input that is made.
pub fn input_names_are_held()
    ensures files { InputNamesAreHeld }
    ensures made { MadeNamesAreHeld }
{}
