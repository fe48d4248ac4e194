//! Rows of Infer: what the type of a term rests on, the questions that are asked for it and one step of typing.
#![tactic(auto)]

mod applications;
mod asked;
mod atoms;
mod binders;
mod constants;
mod field_types;
mod fields;
mod lambdas;
mod lets;
mod literals;
mod parts;
mod pis;
mod projections;
mod row;
mod structures;
mod subjects;

pub use row::type_row;
