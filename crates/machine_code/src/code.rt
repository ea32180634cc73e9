//! Code: a list of instructions, each in a word, short enough for targets of 16 bits.

ghost use Rattle.std.specs.Prelude.{◌≡◌, ◌≢◌, None, ◌∷◌, ◌++◌, [], ◌<◌, ◌≤◌, ◌^◌, ◌⊎◌, length, slice_get, Err, IfOk, IfErr, OnOk, Some, option_map, vec_len};
ghost use Rattle.machine_code.specs.Instructions.{code_view, instr_view};
ghost use Rattle.machine_code.specs.Lent.{op_view};
ghost use Rattle.machine_code.specs.Words.{word_view};

use crate::instr::Instr;
use crate::op::Op;
use crate::pools::Pools;
use crate::word::Word;
use std::alloc::{AllocError, Global};
use std::marker::Model;

/// Instructions, at most 65,535, one word for each. The first is at position 0.
#[derive(Drop)]
pub struct Code {
    words: Vec<u32>,
    pools: Pools,
}

impl Model for Code {
    ghost use Rattle.std.specs.Prelude.{List, ◌<◌, ◌^◌, length};
    ghost use Rattle.std.specs.Coded.{codes};
    ghost use Rattle.cel_value.specs.contracts.cel_type.CelType as types;
    ghost use Rattle.machine_code.specs.declared.instr.Instr.{Instr};

    ghost Value = { List Instr };

    ghost coded = { Prim.hlevel (codes, types.the_row.coded) };

    ghost use Rattle.std.specs.List.{AllByRecursion};
    ghost use Rattle.machine_code.specs.Pools.{parts};
    ghost use Rattle.machine_code.specs.Packing.{IsSpelled, instrs_of};

    ghost view = { λ c. instrs_of (parts c.pools) c.words.items };

    ghost invariant = { λ c. AllByRecursion (IsSpelled (parts c.pools)) c.words.items
        × (length c.words.items < 2 ^ 16) };
}

/// Why a list of instructions cannot be code.
#[derive(Clone, Copy, PartialEq, Eq, Debug)]
pub enum CodeFault {
    /// There are more than 65,535.
    TooMany,
    /// Out of memory.
    Memory,
}

impl Code {
    /// Code without instructions.
    pub fn empty(alloc: Global) -> Code
        ensures { result ≡ [] }
    {
        Code {
            words: Vec::new(alloc),
            pools: Pools::new(alloc),
        }
    }

    /// Appends an instruction. `TooMany` exactly if there are 65,535 already; otherwise `Memory` is
    /// possible. After an error the code is as it was.
    pub fn push(&mut self, instr: Instr) -> Result<(), CodeFault>
        ensures grown { OnOk result (code_view self.new ≡ code_view self.old ++ instr_view instr ∷ []) }
        ensures kept { IfErr result (λ _. self.new ≡ self.old) }
        ensures fault { IfErr result
            (λ e. (e ≡ CodeFault.Memory) ⊎ ((e ≡ CodeFault.TooMany) × (length self.old ≡ 65535))) }
        ensures many { length self.old ≡ 65535 → result ≡ Err CodeFault.TooMany }
    {
        if self.words.len() >= 65_535 {
            return Err(CodeFault::TooMany);
        }
        let Ok(word) = self.pools.word(instr) else {
            return Err(CodeFault::Memory);
        };
        let Ok(()) = put(&mut self.words, word) else {
            return Err(CodeFault::Memory);
        };
        Ok(())
    }

    /// The code of these instructions. `TooMany` exactly if there are more than 65,535; otherwise
    /// `Memory` is possible.
    pub fn new(instrs: Vec<Instr>) -> Result<Code, CodeFault>
        ensures found { IfOk result (λ code. code_view code ≡ code_view instrs.items) }
        ensures fault { IfErr result
            (λ e. (e ≡ CodeFault.Memory) ⊎ ((e ≡ CodeFault.TooMany) × (2 ^ 16 ≤ vec_len instrs))) }
        ensures many { 2 ^ 16 ≤ vec_len instrs → result ≡ Err CodeFault.TooMany }
    {
        if instrs.len() > 65_535 {
            return Err(CodeFault::TooMany);
        }
        let mut code = Code::empty(*instrs.allocator());
        for instr in instrs {
            if let Err(_) = code.push(instr) {
                return Err(CodeFault::Memory);
            }
        }
        Ok(code)
    }

    /// The number of instructions.
    #[inline(always)]
    pub fn len(&self) -> usize
        ensures count { result ≡ length (code_view self.now) }
        ensures same { result ≡ length self.now }
        ensures short { result < 2 ^ 16 }
    {
        self.words.len()
    }

    /// Code has fewer than 2^16 instructions, so that targets fit 16 bits.
    pub(crate) fn is_short(&self)
        ensures { length self.now < 2 ^ 16 }
    {
        let _ = self.len();
    }

    /// The instruction at a position; none past the last.
    pub fn instr(&self, position: usize) -> Result<Option<Instr>, AllocError>
        ensures { IfOk result
            (λ found. option_map instr_view found ≡ slice_get (code_view self.now) position) }
    {
        if position < self.len() {
            return Ok(Some(self.op(position).instr()?));
        }
        Ok(None)
    }

    /// The word at a position.
    #[inline(always)]
    pub fn word(&self, position: usize) -> Word<'_>
        requires { position < length self.now }
        ensures at { slice_get (code_view self.now) position ≡ word_view result }
        ensures known { word_view result ≢ None }
    {
        Word {
            word: self.words[position],
            pools: &self.pools,
        }
    }

    /// The instruction at a position, with its parts lent.
    #[inline(always)]
    pub fn op(&self, position: usize) -> Op<'_>
        requires { position < length self.now }
        ensures { slice_get (code_view self.now) position ≡ Some (op_view result) }
    {
        self.word(position).op()
    }
}

fn put(words: &mut Vec<u32>, word: u32) -> Result<(), AllocError>
    ensures put { OnOk result (words.new.items ≡ words.old.items ++ word ∷ []) }
    ensures kept { IfErr result (λ _. words.new.items ≡ words.old.items) }
{
    words.push(word)?;
    Ok(())
}
