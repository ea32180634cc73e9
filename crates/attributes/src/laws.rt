//! Laws of the definitions. Each is a function without parameters whose contract is the law.
ghost use Rattle.std.specs.Prelude.{◌≡◌, ◌≢◌, ◌↔◌, ℕ, IfSome, List, [], Some, None};
ghost use Rattle.std.specs.FinMap.{get};
ghost use Rattle.attributes.specs.Attributes.{HasAttrType, attr_name, attr_of, attr_type};
ghost use Rattle.attributes.specs.Headers.{Entry, HeaderMap, headers_of, values_of, with_commas};
ghost use Rattle.attributes.specs.Limits.{AreLimits, LimitsValue, first_fault};
ghost use Rattle.attributes.specs.Request.{IsRequest, RequestValue};
ghost use Rattle.attributes.specs.declared.attribute.AttrId.{AttrId};

/// If a request has an attribute, its value has the attribute's type.
pub fn attributes_have_their_types()
    ensures { (r : RequestValue) (id : AttrId) → IsRequest r
        → IfSome (attr_of r id) (HasAttrType (attr_type id)) }
{}

/// Declared limits have no fault exactly if none is 0 or above the greatest.
pub fn limits_without_fault()
    ensures { (l : LimitsValue) → (first_fault l ≡ None) ↔ AreLimits l }
{}

/// A name is that of one attribute at most.
pub fn attribute_name_unique()
    ensures { (a b : AttrId) → attr_name a ≡ attr_name b → a ≡ b }
{}

/// The headers of entries have all values of each name, joined with commas, and no other name.
pub fn headers_are_joined()
    ensures there { (es : List Entry) (name : List ℕ) → values_of name es ≢ []
        → get (headers_of es) name ≡ Some (with_commas (values_of name es)) }
    ensures absent { (es : List Entry) (name : List ℕ) → values_of name es ≡ []
        → get (headers_of es) name ≡ None }
{}

/// Headers that have the same value at each name are one map.
pub fn joined_headers_unique()
    ensures { (a b : HeaderMap) → ((name : List ℕ) → get a name ≡ get b name) → a ≡ b }
{}
