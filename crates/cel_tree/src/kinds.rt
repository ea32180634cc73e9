//! The members of the oneofs of a node, of a constant and of a type.

/// A member of an Expr's oneof.
#[derive(Clone, Copy, PartialEq, Eq, Debug)]
pub enum NodeKind {
    /// `const_expr`
    Constant,
    /// `ident_expr`
    Ident,
    /// `select_expr`
    Select,
    /// `call_expr`
    Call,
    /// `list_expr`
    List,
    /// `struct_expr`
    Struct,
    /// `comprehension_expr`
    Comprehension,
}

/// A supported member of a Constant's oneof.
#[derive(Clone, Copy, PartialEq, Eq, Debug)]
pub enum ConstantKind {
    Bool,
    Int,
    Uint,
    Text,
    Bytes,
}

/// A supported member of a Type's oneof.
#[derive(Clone, Copy, PartialEq, Eq, Debug)]
pub enum TypeKind {
    /// `dyn`
    Dyn,
    /// `primitive`
    Primitive,
    /// `list_type`
    List,
    /// `map_type`
    Map,
}
