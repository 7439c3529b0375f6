//! Beginnings of lines.
ghost use Rattle.std.specs.Prelude.{◌≡◌, ◌++◌, IfOk};
ghost use Rattle.masm_columns.specs.Beginnings as spec;

use masm_lines::line_of;
use std::alloc::{AllocError, Global};

/// Whether a text is a line.
pub fn is_line(text: &[u8]) -> bool
    ensures { result ≡ spec.is_line text.now }
{
    match line_of(text) {
        Ok(_) => true,
        Err(_) => false,
    }
}

/// Whether some text is a line with another one behind it.
fn is_line_with(alloc: Global, beginning: &[u8], more: &str) -> Result<bool, AllocError>
    ensures { IfOk result (λ found. found ≡ spec.is_line (beginning.now ++ more.now)) }
{
    let mut text = Vec::from_slice(alloc, beginning)?;
    text.extend_from_slice(more.as_bytes())?;
    Ok(is_line(&text))
}

/// Whether a beginning is a line with the first of some texts behind it, or with another one.
macro_rules! any_line {
    ($alloc:expr, $beginning:expr; $($more:expr),+) => {{
        $(
            if is_line_with($alloc, $beginning, $more)? {
                return Ok(true);
            }
        )+
        Ok(false)
    }};
}

/// Whether operands can follow the beginning of a line, or none, so that it is a line.
#[tactic(auto, unfolding(crate::specs::Beginnings::goes_on))]
pub fn goes_on(alloc: Global, beginning: &[u8]) -> Result<bool, AllocError>
    ensures { IfOk result (λ found. found ≡ spec.goes_on beginning.now) }
{
    any_line!(alloc, beginning; "", ",$0", ",0", ",0($0)", ",$0,$0", ",$0,0")
}
