//! What a seat at the lock's table knows. No value of these types is made.
use std::collections::LinkedList;

/// Where a seat stands.
pub enum Stage<T> {
    Vacant,
    Filling,
    Outside,
    /// The value as it was got.
    Inside(T),
    Gone,
}

/// What is kept of a pass that was joined into another.
pub struct Joined<E, P> {
    pub number: u64,
    pub part: Option<P>,
    pub seen: LinkedList<E>,
}

/// What a seat knows.
pub struct View<T, E, P> {
    pub number: u64,
    pub seen: LinkedList<E>,
    pub part: Option<P>,
    pub joined: LinkedList<Joined<E, P>>,
    pub stage: Stage<T>,
    /// The value that filled the lock.
    pub filled: Option<T>,
    /// How many numbers were given out, or 0 where the seat may give none.
    pub given: u64,
    /// How many entries it has counted that are not home yet.
    pub ahead: u64,
}
