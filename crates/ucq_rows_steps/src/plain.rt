//! The plain definition as a program: any map from some atoms of a query to atoms of a head is tried against it.
use std::alloc::{AllocError, Global};
use ucq_terms::{Query, Rule, Term};

/// For each of the first places the place of a head's atom, or none.
pub type Map = [Option<u32>; 4];

#[derive(Clone, Copy, PartialEq, Eq)]
enum Node {
    Constant(u32),
    OfQuery(u32),
    OfRule(u32),
}

fn query_node(term: Term) -> Node {
    match term {
        Term::Constant(constant) => Node::Constant(constant),
        Term::Variable(variable) => Node::OfQuery(variable),
    }
}

fn rule_node(term: Term) -> Node {
    match term {
        Term::Constant(constant) => Node::Constant(constant),
        Term::Variable(variable) => Node::OfRule(variable),
    }
}

fn keeps_predicate(query: &Query, rule: &Rule, place: usize, head: u32) -> bool {
    match (query.atoms().get(place), rule.heads().get(head as usize)) {
        (Some(atom), Some(other)) => {
            atom.name() == other.name() && atom.terms().len() == other.terms().len()
        },
        _ => false,
    }
}

fn is_matching(query: &Query, rule: &Rule, map: &Map) -> bool {
    let mut pairs = 0u8;
    for (place, head) in map.iter().enumerate() {
        if let Some(head) = *head {
            if !keeps_predicate(query, rule, place, head) {
                return false;
            }
            pairs = pairs.saturating_add(1);
        }
    }
    pairs > 0
}

fn add_links(
    links: &mut Vec<(Node, Node)>,
    terms: &[Term],
    others: &[Term],
) -> Result<(), AllocError> {
    for (term, other) in terms.iter().zip(others) {
        links.push((query_node(*term), rule_node(*other)))?;
    }
    Ok(())
}

fn links(
    alloc: Global,
    query: &Query,
    rule: &Rule,
    map: &Map,
) -> Result<Vec<(Node, Node)>, AllocError> {
    let mut links = Vec::new(alloc);
    for (atom, head) in query.atoms().iter().zip(map.iter()) {
        if let Some(head) = *head {
            if let Some(other) = rule.heads().get(head as usize) {
                add_links(&mut links, atom.terms(), other.terms())?;
            }
        }
    }
    Ok(links)
}

// Adds the nodes that one link joins to those of the class.
fn grow(class: &mut Vec<Node>, links: &[(Node, Node)]) -> Result<(), AllocError> {
    for (left, right) in links {
        if class.contains(left) && !class.contains(right) {
            class.push(*right)?;
        }
        if class.contains(right) && !class.contains(left) {
            class.push(*left)?;
        }
    }
    Ok(())
}

fn class_of(alloc: Global, links: &[(Node, Node)], node: Node) -> Result<Vec<Node>, AllocError> {
    let mut class = vec![in alloc; node]?;
    for _ in links {
        grow(&mut class, links)?;
    }
    Ok(class)
}

fn is_separating(query: &Query, map: &Map, variable: u32) -> bool {
    let term = Term::Variable(variable);
    let outside = query.atoms().iter().enumerate().any(|(place, atom)| {
        map.get(place).copied().flatten().is_none() && atom.terms().contains(&term)
    });
    outside || query.answers().contains(&term)
}

// Whether the two nodes may be in one class.
fn agree(query: &Query, rule: &Rule, map: &Map, node: Node, other: Node) -> bool {
    match (node, other) {
        (Node::Constant(a), Node::Constant(b)) => a == b,
        (Node::OfRule(v), Node::Constant(_)) => !rule.is_existential(v),
        (Node::OfRule(v), Node::OfQuery(u)) => {
            !rule.is_existential(v) || !is_separating(query, map, u)
        },
        (Node::OfRule(v), Node::OfRule(w)) => v == w || !rule.is_existential(v),
        _ => true,
    }
}

fn agrees_with_all(query: &Query, rule: &Rule, map: &Map, node: Node, class: &[Node]) -> bool {
    for other in class {
        if !agree(query, rule, map, node, *other) {
            return false;
        }
    }
    true
}

fn all_agree(query: &Query, rule: &Rule, map: &Map, class: &[Node]) -> bool {
    for node in class {
        if !agrees_with_all(query, rule, map, *node, class) {
            return false;
        }
    }
    true
}

fn classes_agree(
    alloc: Global,
    query: &Query,
    rule: &Rule,
    map: &Map,
    links: &[(Node, Node)],
) -> Result<bool, AllocError> {
    for (_, node) in links {
        let class = class_of(alloc, links, *node)?;
        if !all_agree(query, rule, map, class.as_slice()) {
            return Ok(false);
        }
    }
    Ok(true)
}

fn is_piece_unifier(
    alloc: Global,
    query: &Query,
    rule: &Rule,
    map: &Map,
) -> Result<bool, AllocError> {
    if !is_matching(query, rule, map) {
        return Ok(false);
    }
    let joined = links(alloc, query, rule, map)?;
    classes_agree(alloc, query, rule, map, joined.as_slice())
}

// The pairs of the map at the places whose bits are set.
fn part(map: &Map, bits: u32) -> Map {
    let mut part = *map;
    for place in 0..4u32 {
        if bits >> place & 1 == 0 {
            part[place as usize] = None;
        }
    }
    part
}

/// Whether the map is a piece-unifier that no two over disjoint atoms make up.
pub fn is_single_piece(
    alloc: Global,
    query: &Query,
    rule: &Rule,
    map: &Map,
) -> Result<bool, AllocError> {
    if !is_piece_unifier(alloc, query, rule, map)? {
        return Ok(false);
    }
    for bits in 0..16u32 {
        let left = is_piece_unifier(alloc, query, rule, &part(map, bits))?;
        if left && is_piece_unifier(alloc, query, rule, &part(map, 15 - bits))? {
            return Ok(false);
        }
    }
    Ok(true)
}
