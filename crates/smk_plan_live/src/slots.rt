//! Lists whose elements are replaced in their places.

ghost use Rattle.std.specs.Prelude.{◌≡◌, ◌<◌, length, slice_set, slice_index_or};

use std::marker::Model;
use std::mem;

/// Elements in their places. Contracts see the list of them.
#[derive(Drop)]
pub struct Slots<T> {
    elements: Vec<T>,
}

impl<T> Model for Slots<T> {
    ghost use Rattle.std.specs.Prelude.{List as Items};
    ghost use Rattle.std.specs.Coded.{coded_list};

    ghost Value = { Items T };

    ghost coded = { coded_list T.code };

    ghost view = { λ slots. slots.elements.items };
}

/// Puts the element in the place, where there is one.
#[tactic(auto, using(crate::proofs::Putting::set_beyond))]
pub(crate) fn put_at<T: Drop>(all: &mut Vec<T>, at: usize, element: T)
    ensures { all.new.items ≡ slice_set all.old.items at element }
{
    if at < all.len() {
        all[at] = element;
    }
}

impl<T> Slots<T> {
    /// These elements.
    pub(crate) fn of(elements: Vec<T>) -> Slots<T>
        ensures { result ≡ elements.items }
    {
        Slots { elements }
    }

    /// The elements.
    pub(crate) fn as_slice(&self) -> &[T]
        ensures { result.now ≡ self.now }
    {
        self.elements.as_slice()
    }

    /// Puts the element in the place, and gives the one that was there.
    pub(crate) fn swap(&mut self, at: usize, element: T) -> T
        requires { at < length self.old }
        ensures was { result ≡ slice_index_or self.old at result }
        ensures now { self.new ≡ slice_set self.old at element }
    {
        mem::replace(&mut self.elements[at], element)
    }
}

impl<T> Slots<T> {
    /// Exchanges the element in the place for this one, where there is one.
    pub(crate) fn exchange(&mut self, at: usize, element: &mut T)
        ensures list { self.new ≡ slice_set self.old at element.old }
        ensures element { element.new ≡ slice_index_or self.old at element.old }
    {
        if at < self.elements.len() {
            mem::swap(&mut self.elements[at], element);
        }
    }
}

impl<T: Drop> Slots<T> {
    /// Puts the element in the place, where there is one.
    pub(crate) fn put(&mut self, at: usize, element: T)
        ensures { self.new ≡ slice_set self.old at element }
    {
        put_at(&mut self.elements, at, element);
    }
}
