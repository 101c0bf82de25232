//! Why a file is not read.

/// Why a file is not read: its first faulty command, by its number from 1 and the place of its first
/// byte, or want of memory.
#[derive(Clone, Copy, Debug, Drop)]
pub enum FileFault<K> {
    Refused {
        kind: K,
        /// The number of the command, from 1.
        command: u32,
        /// The place of its first byte in the file, from 0.
        at: usize,
    },
    /// Memory is wanted.
    NoMemory,
}
