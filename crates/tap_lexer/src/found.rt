//! What a reader found.

/// What was read, and the number of the token after it.
#[derive(Debug, Drop)]
pub struct Found<T> {
    pub value: T,
    pub next: usize,
}
