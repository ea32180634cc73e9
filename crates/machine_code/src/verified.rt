//! Code that was verified.

ghost use Rattle.std.specs.Prelude.{◌≡◌, ◌<◌, ◌^◌, length};
ghost use Rattle.machine_code.specs.Instructions.{code_view};
ghost use Rattle.machine_code.specs.Typable.{IsTypable};

use crate::code::Code;
use std::marker::Model;

/// Code with a table of shapes: no run of it lacks an operand, meets a value of a wrong kind, or
/// leaves the code.
#[derive(Drop)]
pub struct Verified {
    code: Code,
}

impl Model for Verified {
    ghost use Rattle.std.specs.Prelude.{List};
    ghost use Rattle.std.specs.Coded.{codes};
    ghost use Rattle.cel_value.specs.contracts.cel_type.CelType as types;
    ghost use Rattle.machine_code.specs.declared.instr.Instr.{Instr};
    ghost use Rattle.machine_code.specs.Instructions.{code_view};
    ghost use Rattle.machine_code.specs.Typable.{IsTypable};

    ghost Value = { List Instr };

    ghost coded = { Prim.hlevel (codes, types.the_row.coded) };

    ghost view = { λ v. v.code };

    ghost invariant = { λ v. IsTypable (code_view v.code) };
}

impl Verified {
    /// Marks typable code as verified.
    pub fn new(code: Code) -> Verified
        requires { IsTypable (code_view code) }
        ensures { result ≡ code }
    {
        Verified { code }
    }

    /// The code.
    #[inline(always)]
    pub fn code(&self) -> &Code
        ensures same { result.now ≡ self.now }
        ensures short { length result.now < 2 ^ 16 }
        ensures typable { IsTypable (code_view result.now) }
    {
        self.code.is_short();
        &self.code
    }
}
