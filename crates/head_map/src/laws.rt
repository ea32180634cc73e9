//! Laws of mappings. Each is a function without parameters whose contract is the law.
ghost use Rattle.std.specs.Prelude.{◌≡◌};
ghost use Rattle.head_map.specs.declared.fact.MapFault.{MapFault};
ghost use Rattle.head_map.specs.Mapped.{HasMapFault, IsMapped, MappingValue, PartsValue, no_mapping};

/// The request of a front gives at most one request of its client.
pub fn mapped_unique()
    ensures { (m : MappingValue) (old new other : PartsValue) → IsMapped m old new
        → IsMapped m old other → new ≡ other }
{}

/// A request that gives one of the client has no fault.
pub fn mapped_has_no_fault()
    ensures { (m : MappingValue) (old new : PartsValue) (fault : MapFault) → IsMapped m old new
        → ¬ (HasMapFault m old.lines fault) }
{}

/// No request of a front lacks both: it gives one of its client, or has a fault.
pub fn mapped_or_fault()
    ensures { (m : MappingValue) (old : PartsValue) → ((new : PartsValue) → ¬ (IsMapped m old new))
        → ¬ ((fault : MapFault) → ¬ (HasMapFault m old.lines fault)) }
{}

/// A request without mapping is as it was.
pub fn unmapped_as_it_was()
    ensures same { (old new : PartsValue) → IsMapped no_mapping old new → new ≡ old }
    ensures there { (old : PartsValue) → IsMapped no_mapping old old }
{}
