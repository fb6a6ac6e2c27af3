//! A list that contracts see as a list.

ghost use Rattle.std.specs.Prelude.{◌≡◌, IfOk};
ghost use Rattle.std.specs.Cmp.Lexicographic.{pointwise, lists_per, lists_equiv};

use std::alloc::AllocError;
use std::marker::Model;

/// A list inside a change, an entry, a reply or a configuration: IDL's `sequence<T>`.
///
/// It is made from a `Vec` and gives it back without taking memory; its capacity is nobody's business.
#[derive(Debug, Drop)]
pub struct Sequence<T> {
    items: Vec<T>,
}

impl<T> Model for Sequence<T> {
    ghost use Rattle.std.specs.Prelude.{List};

    ghost Value = { List T };

    ghost view = { λ s. s.items.items };
}

impl<T> Sequence<T> {
    /// The list of these elements.
    pub fn from_vec(items: Vec<T>) -> Self
        ensures elements { result ≡ items.items }
    {
        Sequence { items }
    }

    /// The elements, in their order.
    pub fn as_slice(&self) -> &[T]
        ensures elements { result.now ≡ self.now }
    {
        self.items.as_slice()
    }

    /// The elements, to be owned.
    pub fn into_vec(self) -> Vec<T>
        ensures elements { result.items ≡ self }
    {
        let Sequence { items } = self;
        items
    }
}

impl<T: Copy> Sequence<T> {
    /// The same elements, once more.
    ///
    /// # Errors
    ///
    /// Where a growth was refused.
    pub fn copied(&self) -> Result<Sequence<T>, AllocError>
        ensures same { IfOk result (λ copy. copy ≡ self.now) }
    {
        let items = Vec::from_slice(*self.items.allocator(), self.items.as_slice())?;
        Ok(Sequence { items })
    }
}

impl<T: PartialEq> PartialEq for Sequence<T> {
    ghost eq = { pointwise T.eq };

    ghost laws = { lists_per T.laws };

    fn eq(&self, other: &Sequence<T>) -> bool {
        self.as_slice() == other.as_slice()
    }
}

impl<T: Eq> Eq for Sequence<T> {
    ghost laws = { lists_equiv T.Eq.laws };
}
