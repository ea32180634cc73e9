//! An index of policies. With it, a decision skips policies that cannot match the request, and does not look
//! at their rules.

ghost use Rattle.std.specs.Prelude.{◌≡◌, ◌≢◌, ◌≤◌, ◌⊎◌, ◌+◌, true, ℕ, List, IfOk, IfSome, map, take, get_or, length, string_bytes};
ghost use Rattle.attributes.specs.Request.{RequestValue};
ghost use Rattle.rbac_match.specs.Formula.{some_hold};
ghost use Rattle.rbac_match.specs.View.{rules_view};
ghost use Rattle.rbac_policy.specs.Condition.{Program};
ghost use Rattle.rbac_policy.specs.Filter.{Policy};
ghost use Rattle.rbac_policy.specs.Named.{policy_view};
ghost use Rattle.rbac_policy.specs.private.PolicyIndex.{AreNeeded, IsNeeded, AreRequestKeys, IsRuledOut, IsPolicyIndex, Meets, AreKeysFor, mix, number_from, start_number, value_number, value_of};

use crate::policy::NamedPolicy;
use attributes::Request;
use rbac_match::{RuleList, Rules, header_name, header_value, path_start};
use std::alloc::{AllocError, Global};

// How many bytes of a path's start are used, at most.
const MOST: usize = 64;

// How many of the last bytes of a header's value are used.
const LAST: usize = 24;

// A filter with fewer policies has no index.
const FEWEST: usize = 8;

// The name of the header that has a request's method.
const METHOD: &str = ":method";

/// What every request has that a policy matches: numbers for the first `count` bytes of its path, for a
/// header's value, and for its method. The number of a value or a method is 0 if none is needed.
#[derive(Clone, Copy, Debug)]
pub(crate) struct Need {
    count: usize,
    start: u64,
    value: u64,
    method: u64,
}

/// What each policy of a filter needs, in order; empty if an index would save little. Starts have at most
/// `most` bytes. Values are those of the header of this name.
#[derive(Debug, Drop)]
pub(crate) struct PolicyIndex {
    most: usize,
    name: String,
    needs: Vec<Need>,
}

/// The numbers of a request, and what the policies need.
#[derive(Drop)]
pub(crate) struct RequestKeys<'a> {
    needs: &'a [Need],
    starts: [u64; 65],
    value: u64,
    method: u64,
}

impl PolicyIndex {
    /// The index of policies, whose rules are in the list.
    pub(crate) fn of(
        alloc: Global,
        list: &RuleList,
        policies: &[NamedPolicy],
    ) -> Result<PolicyIndex, AllocError>
        ensures { IfOk result (λ policy_index. IsPolicyIndex policy_index (map (policy_view list.now) policies.now)) }
    {
        let most = most_count(list, policies);
        let name = String::from_str(alloc, first_name(list, policies))?;
        if policies.len() < FEWEST {
            return Ok(PolicyIndex {
                most,
                name,
                needs: Vec::new(alloc),
            });
        }
        let needs = needs_of(alloc, list, policies, most, name.as_str())?;
        if are_few(&needs) {
            return Ok(PolicyIndex {
                most,
                name,
                needs: Vec::new(alloc),
            });
        }
        Ok(PolicyIndex { most, name, needs })
    }

    /// Whether the index has no needs.
    #[inline(always)]
    pub(crate) fn is_empty(&self) -> bool {
        self.needs.is_empty()
    }

    /// The numbers that the index needs of the request.
    pub(crate) fn request_keys(&self, request: &Request) -> RequestKeys<'_>
        ensures { (ps : List (Policy Program)) → IsPolicyIndex self.now ps → AreKeysFor result request.now ps }
    {
        RequestKeys {
            needs: &self.needs,
            starts: starts_of(request.url_path().as_bytes(), self.most),
            value: value_seen(request, self.name.as_str()),
            method: value_seen(request, METHOD),
        }
    }
}

impl<'a> RequestKeys<'a> {
    /// Whether the keys rule out the policy of this number, which then does not match.
    #[inline(always)]
    pub(crate) fn rules_out(&self, number: usize) -> bool
        ensures { (r : RequestValue) (ps : List (Policy Program)) → AreKeysFor self.now r ps
            → result ≡ true → IsRuledOut number r ps }
    {
        match self.needs.get(number) {
            Some(need) => !self.meets(need),
            None => false,
        }
    }

    // Whether the request may have what the policy needs.
    #[inline(always)]
    fn meets(&self, need: &Need) -> bool
        ensures { (most : ℕ) (name : List ℕ) (r : RequestValue)
            → AreRequestKeys most name self.now r → Meets most name need.now r → result ≡ true }
    {
        match self.starts.get(need.count) {
            Some(start) => *start == need.start && self.has_values(need),
            None => true,
        }
    }

    // Whether the header's value and the method may be the needed ones.
    #[inline(always)]
    fn has_values(&self, need: &Need) -> bool
        ensures { ((need.now.value ≡ 0) ⊎ (self.now.value ≡ need.now.value))
            → ((need.now.method ≡ 0) ⊎ (self.now.method ≡ need.now.method)) → result ≡ true }
    {
        is_seen(need.value, self.value) && is_seen(need.method, self.method)
    }
}

// Whether no number is needed, or the needed number is the one that is seen.
#[inline(always)]
fn is_seen(needed: u64, seen: u64) -> bool
    ensures { (needed ≡ 0) ⊎ (seen ≡ needed) → result ≡ true }
{
    needed == 0 || needed == seen
}

// The number of bytes of the policies' longest start, up to the limit.
fn most_count(list: &RuleList, policies: &[NamedPolicy]) -> usize {
    let mut most = 0;
    for policy in policies {
        let count = path_start(list, policy.permissions).len();
        if count > most {
            most = count;
        }
    }
    lesser(most, MOST)
}

// The lesser of two numbers.
fn lesser(one: usize, other: usize) -> usize
    ensures { (result ≤ one) × (result ≤ other) }
{
    if one < other {
        return one;
    }
    other
}

// The first header whose value the principals of a policy need.
fn first_name<'a>(list: &'a RuleList, policies: &[NamedPolicy]) -> &'a str {
    for policy in policies {
        if let Some(name) = header_name(list, policy.principals) {
            if header_value(list, policy.principals, name).is_some() {
                return name;
            }
        }
    }
    ""
}

// What each of the policies needs.
fn needs_of(
    alloc: Global,
    list: &RuleList,
    policies: &[NamedPolicy],
    most: usize,
    name: &str,
) -> Result<Vec<Need>, AllocError>
    ensures { IfOk result (λ needs.
        AreNeeded most name.now (map (policy_view list.now) policies.now) needs.items) }
{
    let mut needs = Vec::with_capacity(alloc, policies.len())?;
    for policy in policies {
        needs.push(need_of(list, policy, most, name))?;
    }
    Ok(needs)
}

// Whether fewer than half of the needs can distinguish requests: every path has at least the start `/`.
fn are_few(needs: &[Need]) -> bool {
    let mut count: usize = 0;
    for need in needs {
        if need.count > 1 || need.value != 0 || need.method != 0 {
            count = count.saturating_add(1);
        }
    }
    count < needs.len() / 2
}

// What the policy needs.
fn need_of(list: &RuleList, policy: &NamedPolicy, most: usize, name: &str) -> Need
    ensures { IsNeeded most name.now (policy_view list.now policy.now) result }
{
    let start = path_start(list, policy.permissions);
    let count = lesser(start.len(), most);
    Need {
        count,
        start: number_from(1, &start[..count]),
        value: value_needed(list, policy.principals, name),
        method: value_needed(list, policy.permissions, METHOD),
    }
}

// The number of the header's value in each request that at least one of these rules matches; 0 if none is
// known.
fn value_needed(list: &RuleList, rules: Rules, name: &str) -> u64
    ensures { (r : RequestValue) → some_hold r (rules_view list.now rules) ≡ true
        → result ≢ 0 → value_number (value_of r name.now) ≡ result }
{
    match header_value(list, rules, name) {
        Some(value) => number_of_value(value),
        None => 0,
    }
}

// The numbers of the path's starts of up to `most` bytes; the index is the start's length.
fn starts_of(path: &[u8], most: usize) -> [u64; 65]
    ensures { (count : ℕ) → count ≤ most → count ≤ 64
        → get_or result count 0 ≡ start_number (take count path.now) }
{
    let mut starts = [1; 65];
    let mut number = 1;
    for count in 0..MOST {
        if count >= most {
            return starts;
        }
        number = next_number(number, path, count);
        starts[count + 1] = number;
    }
    starts
}

// The number of a start with one more byte, if the path has one.
#[inline(always)]
fn next_number(number: u64, path: &[u8], count: usize) -> u64
    requires { number ≡ start_number (take count path.now) }
    ensures { result ≡ start_number (take (count + 1) path.now) }
{
    match path.get(count) {
        Some(byte) => mix(number, *byte),
        None => number,
    }
}

// The number of the value of the request's header of this name; a missing header counts as empty.
fn value_seen(request: &Request, name: &str) -> u64
    ensures { result ≡ value_number (value_of request.now name.now) }
{
    match request.header(name) {
        Some(value) => number_of_value(value.as_bytes()),
        None => number_of_value(&[]),
    }
}

// The number of a header's value.
fn number_of_value(value: &[u8]) -> u64
    ensures { result ≡ value_number value.now }
{
    let from = value.len().saturating_sub(LAST);
    number_from(value.len() as u64, &value[from..])
}

// A number for bytes, computed from `before`, a number for what is before them.
fn number_from(before: u64, bytes: &[u8]) -> u64
    ensures { result ≡ number_from before bytes.now }
{
    let mut number = before;
    for byte in bytes {
        number = mix(number, *byte);
    }
    number
}

// A number computed from a number and the next byte.
#[inline(always)]
fn mix(number: u64, byte: u8) -> u64
    ensures { result ≡ mix number byte }
{
    number.wrapping_mul(257).wrapping_add(byte as u64)
}
