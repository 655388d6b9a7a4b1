//! The output of `--version`.
ghost use Rattle.std.specs.Prelude.{◌≡◌};
ghost use Rattle.cli_orders.specs.Versions.{version_output};

/// The output of `--version`: the version of the program, the schema of its files, and the
/// toolchain that proved it, each in a line.
pub fn version_text() -> &'static str
    ensures { result.now ≡ version_output }
{
    "contacts 0.22.0\nschema 2\nkit rattle-kit-13f logic dac8208d650f15bf\n"
}
