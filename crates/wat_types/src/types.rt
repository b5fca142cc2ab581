//! Number types and function types.

/// A number type.
#[derive(Debug, Clone, Copy, PartialEq, Eq)]
pub enum ValType {
    /// A 32-bit integer.
    I32,
    /// A 64-bit integer.
    I64,
    /// A 32-bit floating-point number.
    F32,
    /// A 64-bit floating-point number.
    F64,
}

/// A function type: the types of the parameters and of the results.
#[derive(Debug, Drop)]
pub struct FuncType {
    /// The types of the parameters, in source order.
    pub params: Vec<ValType>,
    /// The types of the results, in source order.
    pub results: Vec<ValType>,
}
