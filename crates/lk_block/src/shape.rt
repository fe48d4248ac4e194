//! What the check of a block finds out about it.

/// The type `(ys) -> T P is` of a field, where T is a type of the block, P its parameters and neither the types of the ys
/// nor the indices mention a type of the block.
#[derive(Drop)]
pub struct Recursion {
    /// The Locals of the ys.
    pub arguments: Vec<u64>,
    /// The name of T.
    pub name: u64,
    pub indices: Vec<u64>,
}

/// What the type of a field is: it mentions no type of the block, or the field is recursive.
#[derive(Drop)]
pub enum FieldKind {
    Plain,
    Recursive(Recursion),
}

/// The Local that stands for a field, and what its type is.
#[derive(Drop)]
pub struct Field {
    pub variable: u64,
    pub kind: FieldKind,
}

/// A constructor: its name, its fields, and the indices of the type that it ends in.
#[derive(Drop)]
pub struct ConstructorShape {
    pub name: u64,
    pub fields: Vec<Field>,
    pub indices: Vec<u64>,
}

/// A type: its name, the Locals of its indices, and its constructors.
#[derive(Drop)]
pub struct TypeShape {
    pub name: u64,
    pub indices: Vec<u64>,
    pub constructors: Vec<ConstructorShape>,
}

/// A block: the names of its level parameters, the Locals of its parameters, the level of its types' sort, its types, and
/// whether it may be eliminated into every universe. All numbers are those of one store.
#[derive(Drop)]
pub struct Shape {
    pub levels: Vec<u64>,
    pub parameters: Vec<u64>,
    pub sort: u64,
    pub types: Vec<TypeShape>,
    pub large: bool,
}
