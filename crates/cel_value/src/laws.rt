//! Laws of values: equality is exact, keys have a total order, and a map is a finite function.

ghost use Rattle.std.specs.Prelude.{◌≡◌, ◌≢◌, ◌↔◌, ℕ, List, IsTrue, None, Some, if◌then◌else◌, map};
ghost use Rattle.std.specs.Cmp.{IsTotalOrder};
ghost use Rattle.std.specs.Cmp.Lexicographic.{slice_cmp};
ghost use Rattle.std.specs.Ordering.{nat_cmp};
ghost use Rattle.std.specs.Arc.{arc_str_bytes};
ghost use Rattle.std.specs.Str.{IsUtf8};
ghost use Rattle.std.specs.declared.alloc.Global.{Global};
ghost use Rattle.std.specs.declared.cmp.Ordering.TheVariants.{Equal};
ghost use Rattle.std.specs.declared.sync.ArcStr.{ArcStr};
ghost use Rattle.cel_value.specs.Equality.{key_eq, value_eq};
ghost use Rattle.cel_value.specs.Keys.{AreRising, IsAscending, get, is_ascending, key_cmp, put};
ghost use Rattle.cel_value.specs.Texts.{AreScalars, points_of, utf8_of};
ghost use Rattle.cel_value.specs.Types.{ValueType, type_eq};
ghost use Rattle.cel_value.specs.Values.{CelEntries, CelKey, CelValue};
ghost use Rattle.cel_value.specs.View.{pairs_view};

/// A text's code points and its UTF-8 bytes determine each other.
pub fn texts_are_their_bytes()
    ensures bytes { (bs : List ℕ) → IsUtf8 bs → utf8_of (points_of bs) ≡ bs }
    ensures points { (cs : List ℕ) → AreScalars cs → points_of (utf8_of cs) ≡ cs }
    ensures scalars { (bs : List ℕ) → IsUtf8 bs → AreScalars (points_of bs) }
{}

/// The order of texts by code point is the order of their UTF-8 bytes.
pub fn texts_stand_as_their_bytes()
    ensures { (cs ds : List ℕ) → slice_cmp nat_cmp (utf8_of cs) (utf8_of ds) ≡ slice_cmp nat_cmp cs ds }
{}

/// The test of equality is true exactly if the values are the same.
pub fn equality_is_exact()
    ensures values { (v w : CelValue) → IsTrue (value_eq v w) ↔ (v ≡ w) }
    ensures keys { (j k : CelKey) → IsTrue (key_eq j k) ↔ (j ≡ k) }
    ensures types { (s t : ValueType) → IsTrue (type_eq s t) ↔ (s ≡ t) }
{}

/// The order of keys is total, and only equal keys compare as equal.
pub fn keys_are_ordered()
    ensures total { IsTotalOrder key_cmp }
    ensures level { (j k : CelKey) → (key_cmp j k ≡ Equal) ↔ (j ≡ k) }
{}

/// The test of ascending keys is true exactly if they ascend.
pub fn rising_is_tested()
    ensures { (es : CelEntries) → IsTrue (is_ascending es) ↔ IsAscending es }
{}

/// Two maps are the same if they give the same value at each key.
pub fn maps_are_functions()
    ensures { (es fs : CelEntries) → IsAscending es → IsAscending fs
        → ((q : CelKey) → get es q ≡ get fs q) → es ≡ fs }
{}

/// A map with one entry more has the new value at the new key, and at each other key its earlier
/// value.
pub fn put_is_there()
    ensures { (k : CelKey) (v : CelValue) (es : CelEntries) (q : CelKey) → get es k ≡ None
        → get (put k v es) q ≡ (if key_eq k q then Some v else get es q) }
{}

/// Keys that ascend still ascend after an entry is put among them.
pub fn put_keeps_order()
    ensures { (k : CelKey) (v : CelValue) (es : CelEntries) → get es k ≡ None
        → IsAscending es → IsAscending (put k v es) }
{}

/// Pairs of texts are a map if each name is below the next by its bytes.
pub fn sorted_names_are_a_map()
    ensures { (pairs : List (ArcStr Global × ArcStr Global))
        → AreRising (map (λ pair. arc_str_bytes pair.0) pairs) → IsAscending (pairs_view pairs) }
{}
