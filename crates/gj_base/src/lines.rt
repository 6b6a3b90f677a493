//! Lines and columns.

ghost use Rattle.std.specs.Prelude.{◌≡◌, ◌≤◌, ◌<◌, ◌-◌, ◌^◌, length};
ghost use Rattle.gj_base.specs.LineColumn.{line_and_column};

/// The line and the column of an offset in a text, both from 1; the column counts bytes.
pub fn line_col(bytes: &[u8], offset: u32) -> (u32, u32)
    requires inside { offset ≤ length bytes.now }
    requires small { length bytes.now < 2 ^ 32 - 1 }
    ensures value { result ≡ line_and_column bytes.now offset }
{
    let mut line = 1;
    let mut column = 1;
    for byte in &bytes[..offset as usize] {
        if *byte == b'\n' {
            line += 1;
            column = 1;
        } else {
            column += 1;
        }
    }
    (line, column)
}
