//! The pools of code, and the encoding of an instruction by a word and the pools.

ghost use Rattle.std.specs.Prelude.{◌≡◌, ◌<◌, IfOk, length, Some, option_map, slice_get};
ghost use Rattle.machine_code.specs.Instructions.{instr_view};
ghost use Rattle.machine_code.specs.Lent.{op_view};
ghost use Rattle.machine_code.specs.Packing.{IsSpelled, made, spelled};
ghost use Rattle.machine_code.specs.private.Keeping.{Grows, Keeps};
ghost use Rattle.machine_code.specs.Pools.{parts};

use crate::instr::{Constant, Instr};
use crate::numbers::{
    attribute_number, attribute_of, key_number, key_of, kind_of, operation_number, operation_of,
    small_of, wide_of, word_of,
};
use crate::op::Op;
use crate::pool::{Part, Pool};
use cel_value::{CelType, compare_texts, same_texts};
use std::alloc::{AllocError, Global};
use std::cmp::Ordering;
use std::sync::ArcStr;

/// Constants, field names and types, each once, and pairs of targets, or of a local and a target.
#[derive(Drop)]
pub(crate) struct Pools {
    constants: Pool<Constant>,
    names: Pool<ArcStr>,
    types: Pool<CelType>,
    pairs: Vec<(u16, u16)>,
}

impl Pools {
    pub(crate) fn new(alloc: Global) -> Pools {
        Pools {
            constants: Pool::new(alloc),
            names: Pool::new(alloc),
            types: Pool::new(alloc),
            pairs: Vec::new(alloc),
        }
    }

    /// A word that spells the instruction; adds the instruction's parts to the pools.
    pub(crate) fn word(&mut self, instr: Instr) -> Result<u32, AllocError>
        ensures grows { Grows (parts self.old) (parts self.new) }
        ensures spells { IfOk result (λ word.
            option_map instr_view (spelled (parts self.new) word) ≡ Some (instr_view instr)) }
    {
        let (kind, small, wide) = self.operands(instr)?;
        Ok(word_of(kind, small, wide))
    }

    // The parts of the word.
    fn operands(&mut self, instr: Instr) -> Result<(u8, u8, u16), AllocError>
        ensures grows { Grows (parts self.old) (parts self.new) }
        ensures makes { IfOk result (λ w.
            option_map instr_view (made (parts self.new) w.0 w.1 w.2) ≡ Some (instr_view instr)) }
    {
        match instr {
            Instr::Const(constant) => Ok((0, 0, self.constants.number(constant)?)),
            Instr::Attr(id) => Ok((1, attribute_number(id), 0)),
            Instr::Load(local) => Ok((2, local, 0)),
            Instr::Store(local) => Ok((3, local, 0)),
            Instr::Operate(op) => Ok((4, operation_number(op), 0)),
            Instr::Field(name) => Ok((5, 0, self.names.number(name)?)),
            Instr::HasField(name) => Ok((6, 0, self.names.number(name)?)),
            Instr::MakeList(count) => Ok((7, 0, count)),
            Instr::EmptyList(items) => Ok((8, 0, self.types.number(items)?)),
            Instr::MakeMap(count) => Ok((9, 0, count)),
            Instr::EmptyMap(keys, values) => Ok((10, key_number(keys), self.types.number(values)?)),
            Instr::Jump(target) => Ok((11, 0, target)),
            Instr::IfFalse(target) => Ok((12, 0, target)),
            Instr::IfTrue(target) => Ok((13, 0, target)),
            Instr::Test { otherwise, failed } => {
                Ok((14, 0, add_pair(&mut self.pairs, otherwise, failed)?))
            }
            Instr::LoopStart { failed } => Ok((15, 0, failed)),
            Instr::LoopNext { local, done } => Ok((16, local, done)),
            Instr::LoopTest { done, failed } => {
                Ok((17, 0, add_pair(&mut self.pairs, done, failed)?))
            }
            Instr::LoopNext2 { key, value, done } => {
                Ok((18, key, add_pair(&mut self.pairs, value as u16, done)?))
            }
        }
    }

    /// The constant of this number.
    #[inline(always)]
    pub(crate) fn constant(&self, number: u16) -> &Constant
        requires { number < length self.now.constants }
        ensures { slice_get self.now.constants number ≡ Some result.now }
    {
        self.constants.get(number)
    }

    /// The instruction that a word spells, with its parts lent.
    #[inline(always)]
    pub(crate) fn op(&self, word: u32) -> Op<'_>
        requires { IsSpelled (parts self.now) word }
        ensures { option_map instr_view (spelled (parts self.now) word) ≡ Some (op_view result) }
    {
        self.made(kind_of(word), small_of(word), wide_of(word))
    }

    #[inline(always)]
    fn made(&self, kind: u8, small: u8, wide: u16) -> Op<'_>
        requires { (i : Instr) × (made (parts self.now) kind small wide ≡ Some i) }
        ensures { option_map instr_view (made (parts self.now) kind small wide) ≡ Some (op_view result) }
    {
        match kind {
            0 => Op::Const(self.constants.get(wide)),
            1 => Op::Attr(attribute_of(small)),
            2 => Op::Load(small),
            3 => Op::Store(small),
            4 => Op::Operate(operation_of(small)),
            5 => Op::Field(self.names.get(wide)),
            6 => Op::HasField(self.names.get(wide)),
            7 => Op::MakeList(wide),
            8 => Op::EmptyList(self.types.get(wide)),
            9 => Op::MakeMap(wide),
            10 => Op::EmptyMap(key_of(small), self.types.get(wide)),
            11 => Op::Jump(wide),
            12 => Op::IfFalse(wide),
            13 => Op::IfTrue(wide),
            14 => {
                let (otherwise, failed) = self.pairs[wide as usize];
                Op::Test { otherwise, failed }
            }
            15 => Op::LoopStart { failed: wide },
            16 => Op::LoopNext {
                local: small,
                done: wide,
            },
            17 => {
                let (done, failed) = self.pairs[wide as usize];
                Op::LoopTest { done, failed }
            }
            18 => {
                let (value, done) = self.pairs[wide as usize];
                Op::LoopNext2 {
                    key: small,
                    value: (value % 256) as u8,
                    done,
                }
            }
            _ => unreachable!(),
        }
    }
}

// Adds the pair, and gives its number.
fn add_pair(pairs: &mut Vec<(u16, u16)>, first: u16, second: u16) -> Result<u16, AllocError>
    ensures kept { Keeps pairs.old.items pairs.new.items }
    ensures found { IfOk result (λ n. slice_get pairs.new.items n ≡ Some (first, second)) }
{
    let number = pairs.len();
    if number > 65_535 {
        return Err(AllocError);
    }
    pairs.push((first, second))?;
    Ok(number as u16)
}

impl Part for Constant {
    ghost use Rattle.std.specs.Prelude.{◌≡◌, refl};
    ghost use Rattle.machine_code.specs.Instructions.{constant_view};

    ghost IsSame = { λ a b. constant_view a ≡ constant_view b };

    ghost same = { λ x. refl };

    fn order(&self, other: &Constant) -> Ordering {
        match (self, other) {
            (Constant::Bool(a), Constant::Bool(b)) => a.cmp(b),
            (Constant::Int(a), Constant::Int(b)) => a.cmp(b),
            (Constant::Uint(a), Constant::Uint(b)) => a.cmp(b),
            (Constant::Text(a), Constant::Text(b)) => compare_texts(a, b),
            (Constant::Bytes(a), Constant::Bytes(b)) => a.as_slice().cmp(b.as_slice()),
            (Constant::Bool(_), _) => Ordering::Less,
            (_, Constant::Bool(_)) => Ordering::Greater,
            (Constant::Int(_), _) => Ordering::Less,
            (_, Constant::Int(_)) => Ordering::Greater,
            (Constant::Uint(_), _) => Ordering::Less,
            (_, Constant::Uint(_)) => Ordering::Greater,
            (Constant::Text(_), _) => Ordering::Less,
            (_, Constant::Text(_)) => Ordering::Greater,
        }
    }

    fn is_same(&self, other: &Constant) -> bool {
        match (self, other) {
            (Constant::Bool(a), Constant::Bool(b)) => a == b,
            (Constant::Int(a), Constant::Int(b)) => a == b,
            (Constant::Uint(a), Constant::Uint(b)) => a == b,
            (Constant::Text(a), Constant::Text(b)) => same_texts(a, b),
            (Constant::Bytes(a), Constant::Bytes(b)) => a.as_slice() == b.as_slice(),
            _ => false,
        }
    }
}

impl Part for ArcStr {
    ghost use Rattle.std.specs.Prelude.{◌≡◌, refl};
    ghost use Rattle.cel_value.specs.Texts.{text_view};

    ghost IsSame = { λ a b. text_view a ≡ text_view b };

    ghost same = { λ x. refl };

    fn order(&self, other: &ArcStr) -> Ordering {
        compare_texts(self, other)
    }

    fn is_same(&self, other: &ArcStr) -> bool {
        same_texts(self, other)
    }
}

impl Part for CelType {
    ghost use Rattle.std.specs.Prelude.{◌≡◌, refl};
    ghost use Rattle.cel_value.specs.Types.{type_view};

    ghost IsSame = { λ a b. type_view a ≡ type_view b };

    ghost same = { λ x. refl };

    fn order(&self, other: &CelType) -> Ordering {
        order_types(self, other)
    }

    fn is_same(&self, other: &CelType) -> bool {
        self == other
    }
}

fn order_types(left: &CelType, right: &CelType) -> Ordering {
    match (left, right) {
        (CelType::List(a), CelType::List(b)) => order_types(a, b),
        (CelType::Map(j, a), CelType::Map(k, b)) => {
            key_number(*j).cmp(&key_number(*k)).then(order_types(a, b))
        }
        _ => rank(left).cmp(&rank(right)),
    }
}

fn rank(found: &CelType) -> u8 {
    match found {
        CelType::Bool => 0,
        CelType::Int => 1,
        CelType::Uint => 2,
        CelType::Text => 3,
        CelType::Bytes => 4,
        CelType::List(_) => 5,
        CelType::Map(_, _) => 6,
    }
}
