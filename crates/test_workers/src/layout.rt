//! The layout of a script: `layout NAME=NUMBER ..`, with the names of the layout's fields. What isn't named is as
//! by default: two ports with one queue and one socket each.
ghost use Rattle.std.specs.Prelude.{◌≡◌, None, IfOk};
ghost use Rattle.xsk_socket.specs.Layout.{fault_of};

use crate::trouble::Trouble;
use crate::words::{Line, halves, number};
use fixtures::with_field;
use xsk_socket::{Layout, check_layout};

/// The layout of a script, which is accepted.
pub(crate) fn layout_of(lines: &[Line<'_>]) -> Result<Layout, Trouble>
    ensures { IfOk result (λ layout. fault_of layout ≡ None) }
{
    let layout = layout_in(lines)?;
    if check_layout(&layout).is_err() {
        return Err(Trouble::BadLayout);
    }
    Ok(layout)
}

fn layout_in(lines: &[Line<'_>]) -> Result<Layout, Trouble> {
    let mut layout = Layout::default();
    for line in lines {
        if let Some(words) = line.behind("layout") {
            set_all(&mut layout, words)?;
        }
    }
    Ok(layout)
}

fn set_all(layout: &mut Layout, words: &[&str]) -> Result<(), Trouble> {
    for word in words {
        let (name, value) = halves(word, '=')?;
        *layout = with_field(*layout, name, number(value)?).ok_or(Trouble::BadLine)?;
    }
    Ok(())
}
