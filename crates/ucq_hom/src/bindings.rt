//! Variables bound to terms, and the trail by which they are freed again.
ghost use Rattle.std.specs.Prelude.{◌≡◌, ◌<◌, ◌≤◌, ◌++◌, [], ◌∷◌, ℕ, drop, length, None, IfOk};
ghost use Rattle.ucq_hom.specs.Space.{image, IsClear};
ghost use Rattle.ucq_hom.specs.Bindings.{Bound, IsKept, Grown, with_binding, without_last};
ghost use Rattle.ucq_terms.specs.declared.TheConstants.{VARIABLES};

use std::alloc::Global;
use std::marker::Model;
use ucq_terms::{NoMemory, Term, VARIABLES};

/// What each variable is bound to, and the bound variables in the order in which they were bound. There is room for
/// every variable of a stored query, so no call but `new` takes memory.
#[derive(Drop)]
pub struct Bindings {
    images: Vec<Option<Term>>,
    trail: Vec<u32>,
}

impl Model for Bindings {
    ghost use Rattle.std.specs.Prelude.{◌≤◌, vec_capacity};
    ghost use Rattle.ucq_terms.specs.declared.TheConstants.{VARIABLES};
    ghost use Rattle.ucq_hom.specs.Bindings.{Bound, IsKept};

    ghost Value = { Bound };

    ghost view = { λ b. record { images = b.images.items; trail = b.trail.items } };

    ghost invariant = { λ b.
        (VARIABLES ≤ vec_capacity b.trail)
        × IsKept (record { images = b.images.items; trail = b.trail.items }) };
}

impl Bindings {
    /// Nothing is bound.
    pub fn new(alloc: Global) -> Result<Bindings, NoMemory>
        ensures clear { IfOk result (λ b. IsClear b.images) }
    {
        let images = vec![in alloc; None; VARIABLES as usize]?;
        let trail = Vec::with_capacity(alloc, VARIABLES as usize)?;
        Ok(Bindings { images, trail })
    }

    /// The term that the variable is bound to.
    pub fn get(&self, variable: u32) -> Option<Term>
        ensures image { result ≡ image self.now.images variable }
        ensures kept { IsKept self.now }
    {
        self.images.get(variable as usize).copied().flatten()
    }

    /// Binds a free variable.
    pub fn bind(&mut self, variable: u32, term: Term)
        requires below { variable < VARIABLES }
        requires free { image self.old.images variable ≡ None }
        ensures { self.new ≡ with_binding self.old variable term }
    {
        self.images[variable as usize] = Some(term);
        self.trail.push(variable).unwrap();
    }

    /// How many variables are bound. `undo` takes it back to this state.
    pub fn mark(&self) -> usize
        ensures mark { result ≡ length self.now.trail }
        ensures kept { IsKept self.now }
    {
        self.trail.len()
    }

    /// The variables that were bound since the mark was taken.
    pub fn bound_since(&self, mark: usize) -> &[u32]
        requires { mark ≤ length self.now.trail }
        ensures variables { result.now ≡ drop mark self.now.trail }
        ensures kept { IsKept self.now }
    {
        &self.trail[mark..]
    }

    /// Frees the variable that was bound last.
    fn free_last(&mut self)
        requires { 0 < length self.old.trail }
        ensures { self.new ≡ without_last self.old }
    {
        if let Some(variable) = self.trail.pop() {
            self.images[variable as usize] = None;
        }
    }

    /// Frees what was bound since the mark was taken. Takes the time of what was bound.
    pub fn undo(&mut self, mark: usize)
        ensures undone { (before : Bound) →
            Grown before self.old →
            mark ≡ length before.trail →
            self.new ≡ before }
        ensures left { length self.new.trail ≤ mark }
        ensures kept { IsKept self.new }
    {
        while self.mark() > mark {
            self.free_last();
        }
    }

    /// Frees every variable.
    pub fn clear(&mut self)
        ensures { IsClear self.new.images }
    {
        self.undo(0);
    }
}
