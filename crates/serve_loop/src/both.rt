//! Two observers as one.
ghost use Rattle.std.specs.Prelude.{◌≡◌};

use crate::observer::{Failed, Observer};
use crate::service::Outcome;
use crate::stream::Event;
use std::io;
use std::marker::PhantomData;

/// Two observers that see the same events.
#[derive(Drop)]
pub struct Both<F, S, A: Observer<F, S>, B: Observer<F, S>> {
    first: A,
    second: B,
    of: PhantomData<(F, S)>,
    ghost same: { ∥ A.seen first ≡ B.seen second ∥₁ },
}

impl<F, S, A: Observer<F, S>, B: Observer<F, S>> Both<F, S, A, B> {
    ghost use Rattle.std.specs.Prelude.{◌≡◌};

    /// Two observers that saw the same events.
    pub fn new(first: A, second: B) -> Both<F, S, A, B>
        requires { A.seen first ≡ B.seen second }
        ensures { result.first ≡ first }
    {
        Both {
            first,
            second,
            of: PhantomData,
        }
    }

    /// The first observer.
    pub fn first(&self) -> &A
        ensures { result.now ≡ self.now.first }
    {
        &self.first
    }

    /// The second observer, which saw what the first saw.
    pub fn second(&self) -> &B
        ensures value { result.now ≡ self.now.second }
        ensures same { ∥ A.seen self.now.first ≡ B.seen result.now ∥₁ }
    {
        &self.second
    }
}

impl<F, S, A: Observer<F, S>, B: Observer<F, S>> Observer<F, S> for Both<F, S, A, B> {
    ghost seen = { λ o. A.seen o.first };

    fn see(&mut self, event: &Event<'_, F>, outcome: Option<Outcome>, service: &S, now: u64) {
        self.first.see(event, outcome, service, now);
        self.second.see(event, outcome, service, now);
    }

    fn failed(&mut self, failed: Failed, cause: io::Error) {
        self.second.failed(failed, io::Error::from(cause.kind()));
        self.first.failed(failed, cause);
    }
}
