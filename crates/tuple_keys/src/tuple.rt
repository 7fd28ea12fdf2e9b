ghost use Rattle.std.specs.Prelude.{◌≡◌, ◌↔◌, [], ◌∷◌, ◌++◌, List, length, IsTrue, IfOk, OnOk, OnErr};

use crate::Element;
use std::alloc::{AllocError, Global};
use std::marker::Model;

/// A list of elements whose integers have magnitudes below 2 to the 64th.
#[derive(Debug, Drop)]
pub struct Tuple {
    elements: Vec<Element>,
}

impl Model for Tuple {
    ghost use Rattle.std.specs.Prelude.{List};
    ghost use Rattle.tuple_keys.specs.declared.element.Element.{Element};

    ghost Value = { List Element };

    ghost use Rattle.tuple_keys.specs.Elements.{AreSmall};

    ghost view = { λ t. t.elements.items };

    ghost invariant = { λ t. AreSmall t.elements.items };
}

impl Tuple {
    ghost use Rattle.tuple_keys.specs.Elements.{AreSmall, IsSmall};

    /// The tuple of no elements. It takes no memory.
    pub fn new(alloc: Global) -> Self
        ensures { result ≡ [] }
    {
        Tuple {
            elements: Vec::new(alloc),
        }
    }

    /// The same elements, with no copy.
    pub fn from_vec(elements: Vec<Element>) -> Self
        requires { AreSmall elements.items }
        ensures { result ≡ elements.items }
    {
        Tuple { elements }
    }

    /// The same elements, with no copy.
    pub fn into_vec(self) -> Vec<Element>
        ensures same { result.items ≡ self }
        ensures small { AreSmall self }
    {
        let Tuple { elements } = self;
        elements
    }

    pub fn as_slice(&self) -> &[Element]
        ensures same { result.now ≡ self.now }
        ensures small { AreSmall self.now }
    {
        &self.elements
    }

    pub fn len(&self) -> usize
        ensures { result ≡ length self.now }
    {
        self.elements.len()
    }

    pub fn is_empty(&self) -> bool
        ensures { IsTrue result ↔ (self.now ≡ []) }
    {
        self.elements.is_empty()
    }

    /// Adds an element at the end. Without memory the element is let go.
    pub fn push(&mut self, element: Element) -> Result<(), AllocError>
        requires { IsSmall element }
        ensures ok { OnOk result (self.new ≡ self.old ++ element ∷ []) }
        ensures err { OnErr result (self.new ≡ self.old) }
    {
        self.elements.push(element)?;
        Ok(())
    }

    /// An equal tuple with memory of its own.
    pub fn copy(&self) -> Result<Self, AllocError>
        ensures { IfOk result (λ tuple. tuple ≡ self.now) }
    {
        let mut elements = Vec::with_capacity(*self.elements.allocator(), self.elements.len())?;
        for element in &self.elements {
            let element = element.copy()?;
            elements.push(element)?;
        }
        Ok(Tuple { elements })
    }
}
