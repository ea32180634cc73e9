//! Laws of the definitions. Bytes are either one list of fields, or broken at one place. The same
//! is true of a message in several payloads, and of the entries of a map. Fields have one shortest
//! spelling, which reads back.

ghost use Rattle.std.specs.Prelude.{◌≡◌, ◌⊎◌, ℕ, List};
ghost use Rattle.std.specs.List.{concat};
ghost use Rattle.proto_wire.specs.Fields.{Wire, Fields, Broken};
ghost use Rattle.proto_wire.specs.Maps.{KeyKind, Entry, AreEntries, SomeEntryFault};
ghost use Rattle.proto_wire.specs.Merge.{Merges, Breaks};
ghost use Rattle.proto_wire.specs.Messages.{IsMessage, MessageFault};
ghost use Rattle.proto_wire.specs.Places.{Path, BeginsWith};
ghost use Rattle.proto_wire.specs.Shortest.{Shortest};

use crate::fault::WireError;
use crate::key::Key;
use crate::refusal::Refusal;

/// Bytes are one list of fields at most.
pub fn fields_unique()
    ensures { (bytes : List ℕ) (fs gs : List Wire)
        → Fields bytes fs → Fields bytes gs → fs ≡ gs }
{}

/// Bytes are a list of fields, or broken.
pub fn fields_total()
    ensures { (bytes : List ℕ) → ((fs : List Wire) × Fields bytes fs)
        ⊎ ((fs : List Wire) × (e : WireError) × Broken bytes fs e) }
{}

/// No bytes are both a list of fields and broken.
pub fn fields_disjoint()
    ensures { (bytes : List ℕ) (fs gs : List Wire) (e : WireError)
        → Fields bytes fs → Broken bytes gs e → ⊥ }
{}

/// Broken bytes have one fault, after one list of fields.
pub fn broken_unique()
    ensures { (bytes : List ℕ) (fs gs : List Wire) (e d : WireError)
        → Broken bytes fs e → Broken bytes gs d → (fs ≡ gs) × (e ≡ d) }
{}

/// Payloads merge to one list of fields at most.
pub fn merges_unique()
    ensures { (parts : List (List ℕ)) (fs gs : List Wire)
        → Merges parts fs → Merges parts gs → fs ≡ gs }
{}

/// Payloads merge, or one of them is broken.
pub fn merges_total()
    ensures { (parts : List (List ℕ)) → ((fs : List Wire) × Merges parts fs) ⊎ Breaks parts }
{}

/// No payloads both merge and break.
pub fn merges_disjoint()
    ensures { (parts : List (List ℕ)) (fs : List Wire) → Merges parts fs → Breaks parts → ⊥ }
{}

/// The fields of several payloads are those of their concatenation.
pub fn merges_joined()
    ensures { (parts : List (List ℕ)) (fs : List Wire)
        → Merges parts fs → Fields (concat parts) fs }
{}

/// Payloads are a message with these keys, or have a fault.
pub fn message_total()
    ensures { (keys : List Key) (parts : List (List ℕ))
        → ((fs : List Wire) × IsMessage keys parts fs)
        ⊎ ((e : Refusal) × MessageFault keys parts e) }
{}

/// No payloads are both a message with these keys and at fault.
pub fn message_disjoint()
    ensures { (keys : List Key) (parts : List (List ℕ)) (fs : List Wire) (e : Refusal)
        → IsMessage keys parts fs → MessageFault keys parts e → ⊥ }
{}

/// Payloads are one message at most.
pub fn message_unique()
    ensures { (keys : List Key) (parts : List (List ℕ)) (fs gs : List Wire)
        → IsMessage keys parts fs → IsMessage keys parts gs → fs ≡ gs }
{}

/// Payloads are the entries of a map, or some payload has a fault.
pub fn entries_total()
    ensures { (kind : KeyKind) (parts : List (List ℕ))
        → ((es : List (Entry kind)) × AreEntries kind parts es)
        ⊎ ((e : Refusal) × SomeEntryFault kind parts e) }
{}

/// No payloads are both the entries of a map and at fault.
pub fn entries_disjoint()
    ensures { (kind : KeyKind) (parts : List (List ℕ)) (es : List (Entry kind)) (e : Refusal)
        → AreEntries kind parts es → SomeEntryFault kind parts e → ⊥ }
{}

/// Payloads are the entries of a map in one way at most.
pub fn entries_unique()
    ensures { (kind : KeyKind) (parts : List (List ℕ)) (es ds : List (Entry kind))
        → AreEntries kind parts es → AreEntries kind parts ds → es ≡ ds }
{}

/// A path goes on from one message further out in one way at most.
pub fn outer_path_unique()
    ensures { (number position : ℕ) (inner a b : Path)
        → BeginsWith number position inner a → BeginsWith number position inner b → a ≡ b }
{}

/// What is written reads back.
pub fn shortest_reads()
    ensures { (fs : List Wire) (bytes : List ℕ) → Shortest fs bytes → Fields bytes fs }
{}

/// Fields have one shortest spelling at most.
pub fn shortest_unique()
    ensures { (fs : List Wire) (a b : List ℕ) → Shortest fs a → Shortest fs b → a ≡ b }
{}
