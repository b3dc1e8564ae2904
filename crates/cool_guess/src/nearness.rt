//! `distance` counts the changes from one word to another, and `are_near` says whether one word may be a mistyped form of the other.

ghost use Rattle.std.specs.Prelude.{◌≤◌, length};

/// The number of changes from one word to the other: the greater length that is left without the bytes that they begin and end with alike.
pub(crate) fn distance(a: &[u8], b: &[u8]) -> usize {
    let front = alike_in_front(a, b);
    let back = alike_behind(&a[front..], &b[front..]);
    a.len()
        .max(b.len())
        .saturating_sub(front)
        .saturating_sub(back)
}

/// Whether one word may be the other, mistyped: a byte more, less or other; two beside each other exchanged; in long words two.
pub(crate) fn are_near(a: &[u8], b: &[u8]) -> bool {
    let longer = a.len().max(b.len());
    let most = if longer <= 2 {
        0
    } else if longer < 6 {
        1
    } else {
        2
    };
    let apart = distance(a, b);
    a != b && (apart <= most || (apart == 2 && are_exchanged(a, b)))
}

/// Whether two bytes beside each other are exchanged.
fn are_exchanged(a: &[u8], b: &[u8]) -> bool {
    let front = alike_in_front(a, b);
    match (&a[front..], &b[front..]) {
        ([x, y, ..], [z, w, ..]) => a.len() == b.len() && x == w && y == z,
        _ => false,
    }
}

fn alike_in_front(a: &[u8], b: &[u8]) -> usize
    ensures a { result ≤ length a.now }
    ensures b { result ≤ length b.now }
{
    let most = a.len().min(b.len());
    for index in 0..most {
        if !is_same_letter(a[index], b[index]) {
            return index;
        }
    }
    most
}

fn alike_behind(a: &[u8], b: &[u8]) -> usize {
    let most = a.len().min(b.len());
    for index in 0..most {
        if !is_same_letter(a[a.len() - 1 - index], b[b.len() - 1 - index]) {
            return index;
        }
    }
    most
}

fn is_same_letter(a: u8, b: u8) -> bool {
    a.to_ascii_lowercase() == b.to_ascii_lowercase()
}
