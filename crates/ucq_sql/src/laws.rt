//! Laws of statements, each the contract of a function that does nothing.

ghost use Rattle.ucq_sql.specs.Comments.{LinesAreComments};
ghost use Rattle.ucq_sql.specs.Laws.{FactsHaveTables, FactsLinesTellFacts, ResultsAreAnswers, RowsAreTuples, RowsTellTuples, SelectMeansQuery, StatementMeansUnion, StoredArePrinted, TableLinesTellTables, TableNamesTellTables, TextHasOneStatement, ValuesTellConstants};

/// Over the tables of facts of constants, the select of a safe query yields the row of a tuple exactly where the query maps
/// into the facts with the tuple. The empty tuple is the row of the number 1. Facts of any kind have tables.
pub fn select_means_query()
    ensures means { SelectMeansQuery }
    ensures tables { FactsHaveTables }
{}

/// Over the tables of facts of constants, the statement of a union of safe queries yields the row of a tuple exactly where the
/// tuple is an answer of the union, which is where some member maps into the facts with it. It yields no other rows, and the
/// row of a tuple tells the tuple. So what the statement gives is the rows of the answers, each once.
pub fn statement_means_union()
    ensures means { StatementMeansUnion }
    ensures rows { RowsAreTuples }
    ensures told { RowsTellTuples }
    ensures results { ResultsAreAnswers }
{}

/// Under names that differ, a text has one statement: no name or value, whatever quotes it has, can end where it doesn't. The
/// select of a stored query whose names are held is printed, so this speaks of each statement of such queries.
pub fn text_has_one_statement()
    ensures told { TextHasOneStatement }
    ensures printed { StoredArePrinted }
{}

/// Under names that differ, no two tables have one name, and no two constants one value.
pub fn names_are_told()
    ensures tables { TableNamesTellTables }
    ensures values { ValuesTellConstants }
{}

/// Under names that differ, the line that makes a table tells it, and the line that puts facts into a table tells both, with
/// what follows the line: nothing that a fact holds can end it.
pub fn lines_are_told()
    ensures tables { TableLinesTellTables }
    ensures facts { FactsLinesTellFacts }
{}

/// Each line of `query_comment`, `rows_cut_comment` and `wide_cut_comment` is a comment to its end, whatever the label's bytes.
pub fn lines_are_comments()
    ensures { LinesAreComments }
{}
