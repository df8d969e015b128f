//! Terms whose variables are taken apart.
ghost use Rattle.std.specs.Prelude.{◌≡◌};
ghost use Rattle.ucq_terms.specs.Unifier.{query_node, copy_node};
ghost use Rattle.ucq_classes.specs.Numbers.{node_of};

use ucq_terms::Term;

/// A term of a query and of copies of rules, whose variables are taken apart. Constants are shared.
#[derive(Clone, Copy, Drop)]
pub enum Node {
    Constant(u32),
    /// A variable of the query.
    OfQuery(u32),
    /// The copy, and a variable of its rule.
    OfCopy(u32, u32),
}

/// The term of the query.
pub fn term_of_query(term: Term) -> Node
    ensures { node_of result ≡ query_node term }
{
    match term {
        Term::Constant(constant) => Node::Constant(constant),
        Term::Variable(variable) => Node::OfQuery(variable),
    }
}

/// The term of the copy.
pub fn term_of_copy(copy: u32, term: Term) -> Node
    ensures { node_of result ≡ copy_node copy term }
{
    match term {
        Term::Constant(constant) => Node::Constant(constant),
        Term::Variable(variable) => Node::OfCopy(copy, variable),
    }
}
