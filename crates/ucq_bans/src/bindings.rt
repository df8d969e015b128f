//! Variables bound to terms without memory, and the trail by which they are freed again.
ghost use Rattle.std.specs.Prelude.{◌≡◌, ◌<◌, ◌≤◌, length, None};
ghost use Rattle.ucq_hom.specs.Space.{image, IsClear};
ghost use Rattle.ucq_hom.specs.Bindings.{Bound, IsKept, Grown, with_binding, without_last};
ghost use Rattle.ucq_terms.specs.declared.TheConstants.{VARIABLES};

use arrayvec::ArrayVec;
use std::marker::Model;
use ucq_terms::{Term, VARIABLES};

/// Room for every variable of a stored query.
const ROOM: usize = VARIABLES as usize;

/// What each variable is bound to, and the bound variables in the order in which they were bound, on the stack.
#[derive(Drop)]
pub(crate) struct Bindings {
    images: [Option<Term>; ROOM],
    trail: ArrayVec<u32, { ROOM }>,
}

impl Model for Bindings {
    ghost use Rattle.ucq_hom.specs.Bindings.{Bound, IsKept};

    ghost Value = { Bound };

    ghost view = { λ b. record { images = b.images; trail = b.trail.items } };

    ghost invariant = { λ b. IsKept (record { images = b.images; trail = b.trail.items }) };
}

impl Bindings {
    /// Nothing is bound.
    pub(crate) fn new() -> Bindings
        ensures { IsClear result.images }
    {
        Bindings {
            images: [None; ROOM],
            trail: ArrayVec::new(),
        }
    }

    /// The term that the variable is bound to.
    pub(crate) fn get(&self, variable: u32) -> Option<Term>
        ensures image { result ≡ image self.now.images variable }
        ensures kept { IsKept self.now }
    {
        self.images.get(variable as usize).copied().flatten()
    }

    /// Binds a free variable.
    pub(crate) fn bind(&mut self, variable: u32, term: Term)
        requires below { variable < VARIABLES }
        requires free { image self.old.images variable ≡ None }
        ensures { self.new ≡ with_binding self.old variable term }
    {
        self.images[variable as usize] = Some(term);
        self.trail.push(variable);
    }

    /// How many variables are bound. `undo` takes it back to this state.
    pub(crate) fn mark(&self) -> usize
        ensures mark { result ≡ length self.now.trail }
        ensures kept { IsKept self.now }
    {
        self.trail.len()
    }

    /// Frees the variable that was bound last.
    fn free_last(&mut self)
        requires { 0 < length self.old.trail }
        ensures { self.new ≡ without_last self.old }
    {
        if let Some(variable) = self.trail.pop() {
            self.images[variable as usize] = None;
        }
    }

    /// Frees what was bound since the mark was taken. Takes the time of what was bound.
    pub(crate) fn undo(&mut self, mark: usize)
        ensures undone { (before : Bound) →
            Grown before self.old →
            mark ≡ length before.trail →
            self.new ≡ before }
        ensures left { length self.new.trail ≤ mark }
        ensures kept { IsKept self.new }
    {
        while self.mark() > mark {
            self.free_last();
        }
    }

    /// Frees every variable.
    pub(crate) fn clear(&mut self)
        ensures { IsClear self.new.images }
    {
        self.undo(0);
    }
}
