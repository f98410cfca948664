/// What a timeline keeps under a ticket.
#[derive(Drop)]
pub struct Work<T> {
    /// The virtual time at which the item comes out.
    pub due: u64,
    /// What was scheduled.
    pub item: T,
}
