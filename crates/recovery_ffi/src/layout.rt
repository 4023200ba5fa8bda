//! The layout of the interface: written by `tests/rust.py --write`.

/// A program for this layout names this function, and so links only with a library of the same layout.
/// Does nothing.
#[unsafe(no_mangle)]
pub extern "C" fn recovery_ffi_layout_a23a1a99() {}
