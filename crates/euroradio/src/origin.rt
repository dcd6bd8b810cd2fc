//! Which program this is. `tests/origin.py` writes this file, and refuses one that isn't that of the tree.

/// The version of the program, the kit by which it is proved, and the sum of the sources of which it is built.
pub(crate) const VERSION: &str =
    "euroradio 1.1\nkit rattle-kit-13f logic dac8208d650f15bf\nsources 96c0e343c9be8407cf023b66687aac95965440cc094a928586117d4b892d1e59\n";
