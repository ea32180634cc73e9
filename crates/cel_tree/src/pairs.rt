//! Keeps a value beside a result that may be a refusal.

ghost use Rattle.std.specs.Prelude.{◌≡◌, IfOk, IfErr, Ok, Err};

/// Both values, if the second is one. Otherwise drops the first here, so that callers need no code for it.
#[inline(always)]
pub fn both<T: Drop, U, E>(first: T, second: Result<U, E>) -> Result<(T, U), E>
    ensures found { IfOk result (λ pair. (pair.0 ≡ first) × (second ≡ Ok pair.1)) }
    ensures fault { IfErr result (λ e. second ≡ Err e) }
{
    match second {
        Ok(second) => Ok((first, second)),
        Err(refusal) => Err(refusal),
    }
}

/// The value, if the result is one. Otherwise drops the value here, so that callers need no code for it.
#[inline(always)]
pub fn kept<T: Drop, U: Copy, E>(value: T, tested: Result<U, E>) -> Result<T, E>
    ensures found { IfOk result (λ it. it ≡ value) }
    ensures refused { IfErr tested (λ e. result ≡ Err e) }
    ensures fault { IfErr result (λ e. tested ≡ Err e) }
{
    match tested {
        Ok(_) => Ok(value),
        Err(refusal) => Err(refusal),
    }
}
