//! Laws of the definitions. They say what each test means, what a place of a fault means, and that payloads are
//! exactly one HeaderMatcher or have a fault.

ghost use Rattle.std.specs.Prelude.{◌≡◌, ◌≢◌, ◌↔◌, ◌⊎◌, ◌<◌, ◌≤◌, ◌≤ℤ◌, ◌<ℤ◌, ◌+◌, ◌==◌, ◌||◌, ℕ, ℤ, pos, neg_ℤ, FitsSigned, Bool, true, false, not, List, [], ◌∷◌, ◌++◌, Option, Some, None, IsTrue, codes, take};
ghost use Rattle.std.specs.Char.{to_ascii_lowercase};
ghost use Rattle.std.specs.Int.{w64};
ghost use Rattle.std.specs.List.{AllByRecursion, list_any};
ghost use Rattle.std.specs.Str.{str_to_ascii_lowercase};
ghost use Rattle.std.specs.Str.Parse.{IsNumeral, signed_digits_value, without_leading_sign};
ghost use Rattle.attributes.specs.Address.{Range, share_prefix};
ghost use Rattle.attributes.specs.Request.{RequestValue, header_of};
ghost use Rattle.attributes.specs.declared.address.Ip.{Ip};
ghost use Rattle.proto_wire.specs.declared.place.Step.{Step};
ghost use Rattle.proto_wire.specs.declared.refusal.Refusal.{Refusal};
ghost use Rattle.rbac_match.specs.Causes.{IsCauseOf, IsSame, causes};
ghost use Rattle.rbac_match.specs.Cidr.{source_ip};
ghost use Rattle.rbac_match.specs.Formula.{Formula, Formulas, holds};
ghost use Rattle.rbac_match.specs.Header.{HeaderTest, IsHeader, HeaderFault, specifier_holds};
ghost use Rattle.rbac_match.specs.Int64Range.{int64_in, is_within, range_holds};
ghost use Rattle.rbac_match.specs.Matcher.{matcher_holds};
ghost use Rattle.rbac_match.specs.Places.{Part, PartFault, FaultAt};
ghost use Rattle.std.specs.declared.ops.Range.{Range as PortSpan};
ghost use Rattle.rbac_match.specs.Text.{pattern_holds, TextTest, text_holds};
ghost use Rattle.rbac_match.specs.Tokens.{decode, tokens};
ghost use Rattle.rbac_match.specs.declared.cidr.AddressSource.{AddressSource};
ghost use Rattle.rbac_match.specs.declared.header.Specifier.{Specifier};
ghost use Rattle.rbac_match.specs.declared.header.Specifier.TheVariants.{Present, Range as Within};
ghost use Rattle.rbac_match.specs.declared.int64_range.Int64Range.{Int64Range};
ghost use Rattle.rbac_match.specs.declared.matcher.Matcher.TheVariants.{Header, Address, Port, PortRange, ServerName, UrlPath, Authenticated};
ghost use Rattle.rbac_match.specs.declared.rule.Side.{Side};
ghost use Rattle.rbac_match.specs.declared.text.Pattern.{Pattern};
ghost use Rattle.rbac_match.specs.declared.text.Pattern.TheVariants.{Exact, Prefix, Suffix, Contains};

/// A text passes an exact test if and only if it is the sought text.
pub fn exact_is_the_text()
    ensures { (whole bytes : List ℕ) → IsTrue (pattern_holds Exact whole bytes) ↔ (bytes ≡ whole) }
{}

/// A text passes a prefix test if and only if it is the prefix and then some rest.
pub fn prefix_has_a_rest()
    ensures { (start bytes : List ℕ) → IsTrue (pattern_holds Prefix start bytes)
        ↔ ((rest : List ℕ) × (bytes ≡ start ++ rest)) }
{}

/// A text passes a suffix test if and only if it is some front and then the suffix.
pub fn suffix_has_a_front()
    ensures { (end bytes : List ℕ) → IsTrue (pattern_holds Suffix end bytes)
        ↔ ((front : List ℕ) × (bytes ≡ front ++ end)) }
{}

/// A text passes a contains test if and only if it is some front, then the part, then some rest.
pub fn contained_has_both()
    ensures { (part bytes : List ℕ) → IsTrue (pattern_holds Contains part bytes)
        ↔ ((front rest : List ℕ) × (bytes ≡ front ++ (part ++ rest))) }
{}

/// A test that ignores case compares the text in lower case with the sought text in lower case.
pub fn case_is_lowered()
    ensures { (pattern : Pattern) (sought bytes : List ℕ)
        → text_holds (record { pattern = pattern; sought = sought; ignore_case = true }) bytes
        ≡ pattern_holds pattern (str_to_ascii_lowercase sought) (str_to_ascii_lowercase bytes) }
{}

/// Lower case changes only the bytes of A to Z.
pub fn only_letters_are_lowered()
    ensures letters { (b : ℕ) → 65 ≤ b → b ≤ 90 → to_ascii_lowercase b ≡ b + 32 }
    ensures others { (b : ℕ) → (b < 65) ⊎ (90 < b) → to_ascii_lowercase b ≡ b }
{}

/// A path is tested without its query and its fragment. A target without `?` (63) and `#` (35) is tested
/// whole. Any other target is tested up to the first of them.
pub fn path_ends_before_a_query()
    ensures whole { (test : TextTest) (request : RequestValue)
        → list_any (λ b. (b == 63) || (b == 35)) request.target ≡ false
        → matcher_holds (UrlPath test) request ≡ text_holds test request.target }
    ensures cut { (test : TextTest) (request : RequestValue) (path rest : List ℕ) (mark : ℕ)
        → request.target ≡ path ++ mark ∷ rest
        → list_any (λ b. (b == 63) || (b == 35)) path ≡ false → (mark ≡ 63) ⊎ (mark ≡ 35)
        → matcher_holds (UrlPath test) request ≡ text_holds test path }
{}

/// The server name is tested if there is one; otherwise the empty text is tested.
pub fn absent_server_name_is_empty()
    ensures there { (test : TextTest) (request : RequestValue) (name : List ℕ)
        → request.facts.requested_server_name ≡ Some name
        → matcher_holds (ServerName test) request ≡ text_holds test name }
    ensures absent { (test : TextTest) (request : RequestValue)
        → request.facts.requested_server_name ≡ None
        → matcher_holds (ServerName test) request ≡ text_holds test [] }
{}

/// No peer is authenticated unless the connection is known to use mutual TLS. On such a connection every peer
/// is authenticated, if no name is required.
pub fn mutual_tls_is_needed()
    ensures without { (name : Option TextTest) (request : RequestValue)
        → request.facts.mtls ≢ Some true → matcher_holds (Authenticated name) request ≡ false }
    ensures with { (request : RequestValue) → request.facts.mtls ≡ Some true
        → matcher_holds (Authenticated None) request ≡ true }
{}

/// The required name is compared with the first that is present: the URI SAN, the DNS SAN, the subject. If
/// none is present, no peer passes.
pub fn first_name_counts()
    ensures uri { (test : TextTest) (request : RequestValue) (name : List ℕ)
        → request.facts.mtls ≡ Some true
        → request.facts.uri_san_peer_certificate ≡ Some name
        → matcher_holds (Authenticated (Some test)) request ≡ text_holds test name }
    ensures dns { (test : TextTest) (request : RequestValue) (name : List ℕ)
        → request.facts.mtls ≡ Some true
        → request.facts.uri_san_peer_certificate ≡ None
        → request.facts.dns_san_peer_certificate ≡ Some name
        → matcher_holds (Authenticated (Some test)) request ≡ text_holds test name }
    ensures subject { (test : TextTest) (request : RequestValue) (name : List ℕ)
        → request.facts.mtls ≡ Some true
        → request.facts.uri_san_peer_certificate ≡ None
        → request.facts.dns_san_peer_certificate ≡ None
        → request.facts.subject_peer_certificate ≡ Some name
        → matcher_holds (Authenticated (Some test)) request ≡ text_holds test name }
    ensures nameless { (test : TextTest) (request : RequestValue)
        → request.facts.uri_san_peer_certificate ≡ None
        → request.facts.dns_san_peer_certificate ≡ None
        → request.facts.subject_peer_certificate ≡ None
        → matcher_holds (Authenticated (Some test)) request ≡ false }
{}

/// The number of a text is the one that Rust's `parse` reads, if it fits in 64 bits.
pub fn decimal_text_is_its_number()
    ensures { (text : List ℕ) (z : ℤ) → (int64_in text ≡ Some z)
        ↔ (IsNumeral 10 (without_leading_sign text) × FitsSigned w64 z
        × (z ≡ signed_digits_value 10 text)) }
{}

/// A range has the numbers from its start on that are below its end.
pub fn range_is_two_comparisons()
    ensures { (range : Int64Range) (z : ℤ) → IsTrue (is_within range z)
        ↔ ((range.start ≤ℤ z) × (z <ℤ range.end)) }
{}

/// A range takes a text if and only if it spells a number of 64 bits in the range.
pub fn range_takes_its_decimal_texts()
    ensures { (range : Int64Range) (text : List ℕ) → IsTrue (range_holds range text)
        ↔ ((z : ℤ) × (int64_in text ≡ Some z) × (range.start ≤ℤ z) × (z <ℤ range.end)) }
{}

/// The range from -1 to 10 takes `+9` and `-1`. It takes neither its end nor a text that is no number of 64
/// bits. Inverted, it takes `9x`, but no missing header.
pub fn range_from_minus_one_to_ten()
    ensures taken { (range : Int64Range) → range ≡ record { start = neg_ℤ (pos 1); end = pos 10 }
        → (range_holds range (codes "+9") ≡ true) × (range_holds range (codes "-1") ≡ true) }
    ensures left { (range : Int64Range) → range ≡ record { start = neg_ℤ (pos 1); end = pos 10 }
        → (range_holds range (codes "10") ≡ false) × (range_holds range (codes "9x") ≡ false)
        × (range_holds range (codes "+") ≡ false)
        × (range_holds range (codes "9223372036854775808") ≡ false) }
    ensures inverted { (range : Int64Range)
        → range ≡ record { start = neg_ℤ (pos 1); end = pos 10 }
        → (specifier_holds (Within range) true false (Some (codes "9x")) ≡ true)
        × (specifier_holds (Within range) true false None ≡ false) }
{}

/// If a header is present, inversion negates every answer.
pub fn inversion_turns_the_answer()
    ensures { (asked : Specifier) (empty : Bool) (value : List ℕ)
        → specifier_holds asked true empty (Some value)
        ≡ not (specifier_holds asked false empty (Some value)) }
{}

/// If a header is missing, inversion negates the answer of a test of presence.
pub fn inversion_turns_presence()
    ensures { (wanted empty : Bool)
        → specifier_holds (Present wanted) true empty None
        ≡ not (specifier_holds (Present wanted) false empty None) }
{}

/// A missing header that does not count as empty passes no test of its value, inverted or not.
pub fn missing_header_passes_no_value_test()
    ensures { (h : HeaderTest) (r : RequestValue) → header_of r h.name ≡ None
        → h.treat_missing_header_as_empty ≡ false
        → ((wanted : Bool) → h.specifier ≢ Present wanted) → matcher_holds (Header h) r ≡ false }
{}

/// If a missing header counts as empty, a test of its value answers as for the empty value.
pub fn missing_header_may_count_as_empty()
    ensures { (asked : Specifier) (invert : Bool) → ((wanted : Bool) → asked ≢ Present wanted)
        → specifier_holds asked invert true None ≡ specifier_holds asked invert false (Some []) }
{}

/// The answer of a test of presence is the same, whether or not a missing header counts as empty.
pub fn missing_header_is_not_present()
    ensures { (wanted invert : Bool)
        → specifier_holds (Present wanted) invert true None
        ≡ specifier_holds (Present wanted) invert false None }
{}

/// All payloads are a HeaderMatcher or have a fault.
pub fn header_total()
    ensures { (parts : List (List ℕ)) → ((h : HeaderTest) × IsHeader parts h)
        ⊎ ((e : Refusal) × HeaderFault parts e) }
{}

/// No payloads both are a HeaderMatcher and have a fault.
pub fn header_disjoint()
    ensures { (parts : List (List ℕ)) (h : HeaderTest) (e : Refusal) → IsHeader parts h
        → ¬ (HeaderFault parts e) }
{}

/// Payloads are at most one HeaderMatcher.
pub fn header_unique()
    ensures { (parts : List (List ℕ)) (h k : HeaderTest) → IsHeader parts h → IsHeader parts k
        → h ≡ k }
{}

/// An address is in a range if and only if it is known, is of the range's family, and begins with the range's
/// bits.
pub fn an_address_has_the_prefix()
    ensures { (source : AddressSource) (range : Range) (request : RequestValue)
        → IsTrue (matcher_holds (Address source range) request)
        ↔ ((ip : Ip) × (source_ip source request.facts ≡ Some ip)
        × (share_prefix range.prefix_len range.address ip ≡ true)) }
{}

/// A test of a port holds if and only if the request's port is known and is this one.
pub fn a_port_is_the_same()
    ensures { (port : ℕ) (request : RequestValue)
        → IsTrue (matcher_holds (Port port) request)
        ↔ (request.facts.destination_port ≡ Some port) }
{}

/// A test of a range of ports holds if and only if the port is known, not below the start, and below the end.
pub fn a_port_range_is_two_comparisons()
    ensures { (span : PortSpan ℕ) (request : RequestValue)
        → IsTrue (matcher_holds (PortRange span) request)
        ↔ ((port : ℕ) × (request.facts.destination_port ≡ Some port)
        × (span.start ≤ port) × (port < span.end)) }
{}

/// Decoding the tokens of rules gives these rules.
pub fn tokens_are_their_rules()
    ensures { (rules : Formulas) → decode (tokens rules) ≡ rules }
{}

/// Each cause of a rule is a leaf at the end of its path in the rule. Its value, negated once for each `not` on
/// the path, is the value of the rule.
pub fn causes_are_leaves()
    ensures { (request : RequestValue) (f : Formula)
        → AllByRecursion (IsCauseOf request f) (causes request f) }
{}

/// The causes decide: a request for which they have the same values gives the rule the same value.
pub fn causes_suffice()
    ensures { (request other : RequestValue) (f : Formula)
        → AllByRecursion (IsSame request other) (causes request f) → holds other f ≡ holds request f }
{}

/// The first steps to a part with a fault lead to a part that has the fault as well. So a place may be cut short.
pub fn shorter_place()
    ensures { (side : Side) (k : ℕ) (steps : List Step) (p : Part) (e : Refusal)
        → FaultAt side steps p e → FaultAt side (take k steps) p e }
{}

/// A part has the fault of each part to which steps lead from it.
pub fn outer_part_has_the_fault()
    ensures { (side : Side) (steps : List Step) (p : Part) (e : Refusal)
        → FaultAt side steps p e → PartFault side p e }
{}
