// Which brackets of a text are open, and whether a text is one bracketed form.
ghost use Rattle.std.specs.Prelude.{◌≡◌, ◌+◌, ◌^◌, ◌<◌};
ghost use Rattle.script.specs.Brackets.{after, fills};

/// How many brackets are open after the byte `b`, where `open` were before it.
pub(crate) fn depth_after(open: usize, b: u8) -> usize
    requires { «open» + 1 < 2 ^ 64 }
    ensures { result ≡ after «open» b }
{
    match b {
        b'(' => open + 1,
        b')' => open.saturating_sub(1),
        _ => open,
    }
}

/// Whether the first byte opens a bracket that the last byte closes, and no earlier byte closes it.
pub(crate) fn is_form(text: &[u8]) -> bool
    ensures { result ≡ fills text.now }
{
    if !text.starts_with(b"(") {
        return false;
    }
    // As a chain this is a `scan` that carries the depth by `&mut`, and a `position` after it: no plainer.
    let mut depth = 0;
    for (i, b) in text.iter().enumerate() {
        depth = depth_after(depth, *b);
        if depth == 0 {
            return i + 1 == text.len();
        }
    }
    false
}
