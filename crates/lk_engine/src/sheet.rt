//! What any question keeps while it waits for another one, by the crate that has its steps.

use lk_ask::sheet::Sheet;
use lk_core::sheet::CoreSheet;
use lk_iota::sheet::{IotaTermSheet, IotaTruthSheet};
use lk_proj::sheet::{CoreSheet as ReducedSheet, InferSheet};
use lk_quot::sheet::QuotSheet;
use lk_same::sheet::{SameTermSheet, SameTruthSheet};
use lk_type::sheet::{TypeTermSheet, TypeTruthSheet};

/// What waits for a term.
#[derive(Drop)]
pub enum TermSheet<X: Drop> {
    Core(CoreSheet<X>),
    /// `Core` of a recursor that is applied.
    Iota(IotaTermSheet<X>),
    /// `Core` of a constant of quotient types that is applied.
    Quotient(QuotSheet<X>),
    /// `Core` of a projection.
    Reduced(ReducedSheet<X>),
    Type(TypeTermSheet<X>),
    /// `Infer` of a projection.
    Projected(InferSheet<X>),
    Same(SameTermSheet<X>),
}

/// What waits for yes or no.
#[derive(Drop)]
pub enum TruthSheet<X: Drop> {
    /// `Core` of a recursor that is applied.
    Iota(IotaTruthSheet<X>),
    Type(TypeTruthSheet<X>),
    Same(SameTruthSheet<X>),
}

/// What any question keeps.
pub type AnySheet = Sheet<TermSheet<u64>, TruthSheet<u64>>;
