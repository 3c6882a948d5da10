//! Long lists that are done with.

/// Drops a list, and lets its memory go back to the system.
///
/// A C library may keep blocks up to the size of the greatest one that was ever freed (glibc does, from 128 KiB on). If a list of
/// megabytes were freed whole, the memory of each list after it that isn't longer would be kept, too. So it is cut down to one
/// element first.
pub fn let_go<T: Drop>(mut list: Vec<T>) {
    list.truncate(1);
    list.shrink_to(1);
}
