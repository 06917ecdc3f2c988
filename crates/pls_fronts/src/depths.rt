//! How deep parentheses stand in a text.

ghost use Rattle.std.specs.Prelude.{◌≡◌, ◌≤◌, nat_lt};
ghost use Rattle.pls_fronts.specs.Depth.{deepest, depth_after};

/// Whether parentheses stand more than `most` deep somewhere in a text.
pub fn is_deeper(text: &[u8], most: u8) -> bool
    ensures { result ≡ nat_lt most (deepest 0 text.now) }
{
    let mut depth: u16 = 0;
    for character in text {
        depth = depth_after(depth, *character);
        if depth > most as u16 {
            return true;
        }
    }
    false
}

// The nesting depth of parentheses after `character`.
fn depth_after(depth: u16, character: u8) -> u16
    requires { depth ≤ 255 }
    ensures { result ≡ depth_after depth character }
{
    match character {
        b'(' => depth + 1,
        b')' => depth.saturating_sub(1),
        _ => depth,
    }
}
