use std::collections::LinkedList;

/// What a seat knows. No value of it is made: contracts alone speak of it.
pub struct View {
    /// The number of its thread, once it has one.
    pub number: Option<u64>,
    /// The numbers of the seats that it took in.
    pub numbers: LinkedList<u64>,
    /// The rounds that it was given, in their order.
    pub rounds: LinkedList<u64>,
    /// The round that it was given last.
    pub last: u64,
    /// The rounds that were given to the seats that it took in.
    pub given: LinkedList<u64>,
    /// Whether it holds a turn.
    pub turn: bool,
    /// The turn word as it loaded it last.
    pub word: u64,
    /// The right to number: the next number.
    pub right: Option<u64>,
}
