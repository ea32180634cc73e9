//! The limits of requests, as C gives them.

ghost use Rattle.std.specs.Prelude.{◌≡◌};
ghost use Rattle.c_inputs.specs.Bounds.{limits_given};

use attributes::Limits;

/// The six limits of requests. One is the number of field lines, with the three pseudo-headers. The others are the bytes
/// of a name, a value, a method, a target and any other text. With them goes how many visits the measuring of a
/// filter's conditions may take; 0 for the usual number.
#[repr(C)]
#[derive(Clone, Copy)]
pub struct Bounds {
    pub fields: usize,
    pub name: usize,
    pub value: usize,
    pub method: usize,
    pub target: usize,
    pub text: usize,
    pub visits: u64,
}

/// The limits that are given, if none is 0 or above the greatest. All 0 are the greatest.
pub fn limits_of(bounds: &Bounds) -> Option<Limits>
    ensures { result ≡ limits_given bounds.now }
{
    let Bounds {
        fields,
        name,
        value,
        method,
        target,
        text,
        ..
    } = *bounds;
    if fields == 0 && name == 0 && value == 0 && method == 0 && target == 0 && text == 0 {
        return Some(Limits::largest());
    }
    Limits::new(fields, name, value, method, target, text).ok()
}
