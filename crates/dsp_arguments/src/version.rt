//! The version of the programs.

/// The version, and the kit that it is proved with.
pub const VERSION: &str = "1.0.0, proved with rattle-kit-13f logic dac8208d650f15bf";
