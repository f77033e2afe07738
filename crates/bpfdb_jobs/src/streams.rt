//! What a job writes to.
use counted_io::Counted;

/// Standard output and standard error, or what stands in their place. A job that tells its answer in another
/// form writes to two others in memory, and reads from the same reader: so that isn't among them.
#[derive(Drop)]
pub struct Streams<W, E> {
    /// Results, replies and answers go to it.
    pub output: Counted<W>,
    /// A line of it says why a job is refused, or fails, or what there is to say beside its answer.
    pub errors: Counted<E>,
}
