//! How many there are of something, and the first ones.

use std::alloc::AllocError;

/// The most that are told one by one.
const MOST_FIRST: usize = 5;

/// How many there are, and the first five of them.
#[derive(Debug, PartialEq, Eq)]
pub struct Few<T> {
    count: usize,
    first: [Option<T>; MOST_FIRST],
}

impl<T: Copy> Copy for Few<T> {}

impl<T: Copy> Clone for Few<T> {
    fn clone(&self) -> Result<Self, AllocError> {
        Ok(*self)
    }
}

impl<T: Copy> Few<T> {
    /// Returns none.
    pub fn new() -> Few<T> {
        Few {
            count: 0,
            first: [None; MOST_FIRST],
        }
    }

    /// How many there are.
    pub fn count(&self) -> usize {
        self.count
    }

    /// The first five, and then `None`.
    pub fn first(&self) -> &[Option<T>] {
        &self.first
    }

    /// Adds one more.
    pub fn add(&mut self, one: T) {
        if let Some(place) = self.first.get_mut(self.count) {
            *place = Some(one);
        }
        self.count = self.count.saturating_add(1);
    }
}
