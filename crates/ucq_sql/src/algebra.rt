//! What selects are made of.

/// A table: the number of a predicate's name, and how many columns it has.
#[derive(Clone, Copy, Debug, PartialEq, Eq, Hash)]
pub struct Table {
    pub name: u32,
    pub arity: u32,
}

/// A column of the rows that a select chooses: which of its tables, and which place in the row. Both are from 0.
#[derive(Clone, Copy, Debug, PartialEq, Eq)]
pub struct Column {
    pub alias: u32,
    pub column: u32,
}

/// What a select lists: the value in a column, the value of a constant, or the number 1.
#[derive(Clone, Copy, Debug, PartialEq, Eq)]
pub enum Output {
    Read(Column),
    Value(u32),
    One,
}

/// What a select asks of the rows that it chooses: that two columns hold one value, or that a column holds the value of a
/// constant.
#[derive(Clone, Copy, Debug, PartialEq, Eq)]
pub enum Condition {
    Same(Column, Column),
    Is(Column, u32),
}
