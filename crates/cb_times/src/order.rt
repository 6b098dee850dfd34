//! How two vector times compare.

/// The order of one time against another, field by field.
#[derive(Clone, Copy, Debug, PartialEq, Eq, Hash)]
pub enum TimeOrder {
    /// No field is greater, and some field is less.
    Before,
    /// No field is less, and some field is greater.
    After,
    /// All fields are equal.
    Same,
    /// Some field is less, and some other is greater.
    Concurrent,
}
