//! The accepted state of a client, and the draft that is kept next to it while bytes are answered.

ghost use Rattle.std.specs.Prelude.{◌≡◌, ◌≤◌, ◌+◌, ◌-◌, ◌^◌, min, [], None, List, Option, map, length, vec_len, IfOk};
ghost use Rattle.std.specs.String.{string_bytes};
ghost use Rattle.ads.specs.Answer.{AdmittedValue, nothing_accepted, replaced};
ghost use Rattle.ads.specs.Views.{entries_view};
ghost use Rattle.ads.specs.Views.{policies_view};
ghost use Rattle.ads.specs.Ends.{state_view};
ghost use Rattle.ads.specs.private.Drafts.{draft_view, Covers};

use crate::config::Config;
use crate::judgement::Judgement;
use cost_bound::Budget;
use indexmap::IndexMap;
use rbac_policy::Admitted;
use std::alloc::{AllocError, Global};

/// The last version (empty if there is none), each filter's policies in configured order, and the number of accepted
/// responses.
#[derive(Debug, Drop)]
pub(crate) struct State {
    pub(crate) version: String,
    pub(crate) policies: Vec<Option<Admitted>>,
    pub(crate) generation: u64,
}

impl State {
    /// The state of a client that has accepted nothing.
    pub(crate) fn new(alloc: Global, config: &Config) -> Result<State, AllocError>
        ensures { IfOk result (λ s. state_view s ≡ nothing_accepted config.now) }
    {
        Ok(State {
            version: String::new(alloc),
            policies: no_policies(alloc, config.filters())?,
            generation: 0,
        })
    }

    /// Replaces the old version, policies and generation by the draft's, and returns its replies and judgements. It
    /// takes no memory.
    pub(crate) fn commit(&mut self, draft: Draft) -> (Vec<u8>, Vec<Judgement>)
        requires { Covers (vec_len self.old.policies) draft.given.items }
        ensures state { state_view self.new ≡ draft_view (policies_view self.old.policies.items) draft }
        ensures length { vec_len self.new.policies ≡ vec_len self.old.policies }
        ensures replies { result.0.items ≡ draft.replies.items }
        ensures judgements { result.1.items ≡ draft.judgements.items }
    {
        place(&mut self.policies, draft.given);
        self.version = draft.version;
        self.generation = draft.generation;
        (draft.replies, draft.judgements)
    }
}

// A list with no policies for each of the filters.
fn no_policies(
    alloc: Global,
    filters: &IndexMap<String, Budget>,
) -> Result<Vec<Option<Admitted>>, AllocError>
    ensures { IfOk result (λ v. policies_view v.items ≡ map (λ f. None) (entries_view filters.now.entries)) }
{
    let mut policies = Vec::new(alloc);
    for (name, _) in filters {
        let _ = name;
        policies.push(None)?;
    }
    Ok(policies)
}

/// The changes to the state, the replies and the judgements, while bytes are answered.
#[derive(Debug, Drop)]
pub(crate) struct Draft {
    pub(crate) version: String,
    pub(crate) given: Vec<Option<Admitted>>,
    pub(crate) generation: u64,
    pub(crate) replies: Vec<u8>,
    pub(crate) judgements: Vec<Judgement>,
}

impl Draft {
    /// A draft that changes nothing.
    pub(crate) fn new(alloc: Global, state: &State) -> Result<Draft, AllocError>
        ensures same { IfOk result (λ draft.
            draft_view (policies_view state.now.policies.items) draft ≡ state_view state.now) }
        ensures given { IfOk result (λ draft. draft.given.items ≡ []) }
        ensures replies { IfOk result (λ draft. draft.replies.items ≡ []) }
        ensures judgements { IfOk result (λ draft. draft.judgements.items ≡ []) }
    {
        Ok(Draft {
            version: state.version.clone()?,
            given: Vec::new(alloc),
            generation: state.generation,
            replies: Vec::new(alloc),
            judgements: Vec::new(alloc),
        })
    }

    /// Accepts a version, and the policies that it gives each filter. It takes no memory.
    pub(crate) fn accept(&mut self, version: String, given: Vec<Option<Admitted>>)
        requires { Covers (vec_len given) self.old.given.items }
        ensures version { string_bytes self.new.version ≡ string_bytes version }
        ensures generation { self.new.generation ≡ min (self.old.generation + 1) (2 ^ 64 - 1) }
        ensures policies { (old : List (Option AdmittedValue)) → replaced old (policies_view self.new.given.items)
            ≡ replaced (replaced old (policies_view self.old.given.items)) (policies_view given.items) }
        ensures length { vec_len self.new.given ≡ vec_len given }
        ensures replies { self.new.replies.items ≡ self.old.replies.items }
        ensures judgements { self.new.judgements.items ≡ self.old.judgements.items }
    {
        self.version = version;
        self.generation = self.generation.saturating_add(1);
        if self.given.is_empty() {
            self.given = given;
        } else {
            place(&mut self.given, given);
        }
    }
}

// Puts each given policy in its place; if none is given, the old one stays. It takes no memory.
fn place(policies: &mut Vec<Option<Admitted>>, mut given: Vec<Option<Admitted>>)
    requires { vec_len given ≤ vec_len policies.old }
    ensures placed { policies_view policies.new.items
        ≡ replaced (policies_view policies.old.items) (policies_view given.items) }
    ensures length { length policies.new.items ≡ length policies.old.items }
{
    while let Some(newest) = given.pop() {
        if newest.is_some() {
            policies[given.len()] = newest;
        }
    }
}
