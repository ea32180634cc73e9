//! What a new proxy core has to be fed to have the same policies.
ghost use Rattle.std.specs.Prelude.{◌≡◌, ◌↔◌, IfOk, IsTrue};
ghost use Rattle.serve_log.specs.Beginnings.{IsNew, forgotten};

use std::alloc::{AllocError, Global};
use std::mem;

/// What bytes of the update stream did, in which at most one response ends: at their last byte.
#[derive(Clone, Copy)]
pub enum UpdateBytes<'a> {
    /// No response is complete, or the stream is broken.
    Partial,
    /// A response is complete and accepted. It gave the policies of the filters with these places in the configuration.
    Accepted(&'a [usize]),
    /// A response is complete and refused.
    Refused,
}

/// A response that was accepted.
#[derive(Drop)]
pub(crate) struct AcceptedResponse {
    // how many responses were accepted, with this one
    generation: u64,
    /// Its frame.
    pub(crate) bytes: Vec<u8>,
}

/// What a new proxy core has to be fed to have the same policies.
#[derive(Drop)]
pub(crate) struct Updates {
    alloc: Global,
    is_up: bool,
    // how many responses were accepted
    generation: u64,
    // for each filter the number of the response that last gave its policies, or 0
    given_by: Vec<u64>,
    kept: Vec<AcceptedResponse>,
    // the bytes of the response that is not complete
    unfinished: Vec<u8>,
    // whether no memory was lacking for them
    has_all: bool,
}

impl Updates {
    /// No response was accepted, for so many filters.
    pub(crate) fn new(alloc: Global, filters: usize) -> Result<Updates, AllocError>
        ensures { IfOk result (λ updates. IsNew updates) }
    {
        let mut given_by = Vec::new(alloc);
        for _ in 0..filters {
            given_by.push(0)?;
        }
        Ok(Updates {
            alloc,
            is_up: false,
            generation: 0,
            given_by,
            kept: Vec::new(alloc),
            unfinished: Vec::new(alloc),
            has_all: true,
        })
    }

    /// The stream comes up, or is lost.
    pub(crate) fn set_up(&mut self, is_up: bool) {
        self.is_up = is_up;
        let _ = self.finish();
    }

    /// The stream delivers bytes.
    pub(crate) fn feed(&mut self, bytes: &[u8], fed: &UpdateBytes<'_>) {
        if self.unfinished.extend_from_slice(bytes).is_err() {
            self.has_all = false;
        }
        match fed {
            UpdateBytes::Partial => {}
            UpdateBytes::Accepted(filters) => self.accept(filters),
            UpdateBytes::Refused => {
                let _ = self.finish();
            }
        }
    }

    // The bytes of the response that ends; none if memory ran out for them.
    fn finish(&mut self) -> Option<Vec<u8>> {
        let bytes = mem::replace(&mut self.unfinished, Vec::new(self.alloc));
        let has_all = mem::replace(&mut self.has_all, true);
        if has_all { Some(bytes) } else { None }
    }

    fn accept(&mut self, filters: &[usize]) {
        self.generation = self.generation.saturating_add(1);
        let generation = self.generation;
        for filter in filters {
            if let Some(given_by) = self.given_by.get_mut(*filter) {
                *given_by = generation;
            }
        }
        if let Some(bytes) = self.finish() {
            let _ = self.kept.push(AcceptedResponse { generation, bytes });
        }
        let given_by = &self.given_by;
        self.kept.retain(|kept| kept.generation == generation
            || given_by.contains(&kept.generation));
    }

    /// Whether the bytes of each response that counts are kept. That is the case if memory did not run out.
    pub(crate) fn is_complete(&self) -> bool {
        for generation in &self.given_by {
            if !self.has(*generation) {
                return false;
            }
        }
        self.has(self.generation) && self.has_all
    }

    fn has(&self, generation: u64) -> bool {
        generation == 0 || self.kept.iter().any(|kept| kept.generation == generation)
    }

    /// Whether nothing has happened that a new core has to be fed.
    pub(crate) fn is_new(&self) -> bool
        ensures { IsTrue result ↔ IsNew self.now }
    {
        self.generation == 0 && !self.is_up
    }

    /// Whether the stream is up.
    pub(crate) fn is_up(&self) -> bool
        ensures { result ≡ self.now.is_up }
    {
        self.is_up
    }

    /// How many of the accepted responses are not kept.
    pub(crate) fn forgotten(&self) -> u64
        ensures { result ≡ forgotten self.now }
    {
        self.generation.saturating_sub(self.kept.len() as u64)
    }

    /// The responses that are kept, in order.
    pub(crate) fn kept(&self) -> &[AcceptedResponse]
        ensures { result.now ≡ self.now.kept.items }
    {
        &self.kept
    }

    /// The bytes of the response that is not complete.
    pub(crate) fn unfinished(&self) -> &[u8]
        ensures { result.now ≡ self.now.unfinished.items }
    {
        &self.unfinished
    }
}
