//! What is kept of connections, by place.

use std::alloc::{AllocError, Global};

/// What is kept of connections, by their places. A place may be free.
#[derive(Drop)]
pub struct Places<T: Drop> {
    all: Vec<Option<T>>,
}

impl<T: Drop> Places<T> {
    /// So many places, all of them free.
    pub fn new(alloc: Global, count: usize) -> Result<Places<T>, AllocError> {
        let mut all = Vec::with_capacity(alloc, count)?;
        for _ in 0..count {
            all.push(None)?;
        }
        Ok(Places { all })
    }

    /// How many places there are.
    pub fn len(&self) -> usize {
        self.all.len()
    }

    /// Whether there is no place.
    pub fn is_empty(&self) -> bool {
        self.all.is_empty()
    }

    /// The first free place.
    pub fn first_free(&self) -> Option<usize> {
        self.all.iter().position(|place| place.is_none())
    }

    /// What is in a place.
    pub fn get(&self, k: usize) -> Option<&T> {
        match self.all.get(k) {
            Some(Some(kept)) => Some(kept),
            _ => None,
        }
    }

    /// What is in a place, to be changed.
    pub fn get_mut(&mut self, k: usize) -> Option<&mut T> {
        match self.all.get_mut(k) {
            Some(Some(kept)) => Some(kept),
            _ => None,
        }
    }

    /// Puts a value into a place. What was there is dropped, as is the value if there is no such place.
    pub fn put(&mut self, k: usize, kept: T) {
        if let Some(place) = self.all.get_mut(k) {
            *place = Some(kept);
        }
    }

    /// Frees a place. Returns whether something was there.
    pub fn free(&mut self, k: usize) -> bool {
        match self.all.get_mut(k) {
            Some(place) => place.take().is_some(),
            None => false,
        }
    }
}
