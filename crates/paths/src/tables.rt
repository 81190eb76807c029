//! What a tick writes.

/// A cell that was delivered: to whom, and its label.
#[derive(Clone, Copy)]
pub struct Delivery {
    pub party: u8,
    pub label: u32,
}
