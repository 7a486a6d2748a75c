/// What comes of putting vertices in an order.
#[derive(Drop)]
pub enum Sorted {
    /// Each vertex once, after its successors.
    Order(Vec<usize>),
    /// Each is followed by one of its successors, and the last one by the first.
    Cycle(Vec<usize>),
}
