// How much a receive may give.
ghost use Rattle.std.specs.Prelude.{◌≡◌, ◌≤◌, length, IfSome};
ghost use Rattle.news_spool.specs.Pieces.{bounded, is_spent, left_of, next_turn, piece_at};

// The bound of the receive whose turn it is, where there are bounds.
pub(crate) fn piece_at(pieces: &[u32], turn: usize) -> Option<u64>
    ensures { result ≡ piece_at pieces.now turn }
{
    if turn < pieces.len() {
        Some(u64::from(pieces[turn]))
    } else {
        None
    }
}

// The turn behind that. Behind the last comes the first.
pub(crate) fn next_turn(count: usize, turn: usize) -> usize
    ensures { result ≡ next_turn count turn }
{
    if turn < count && turn + 1 < count {
        turn + 1
    } else {
        0
    }
}

// At most so many, where there is a bound.
pub(crate) fn bounded(bound: Option<u64>, n: usize) -> usize
    ensures { result ≡ bounded bound n }
{
    match bound {
        None => n,
        Some(most) => most.min(n as u64) as usize,
    }
}

// Whether a bound is used up.
pub(crate) fn is_spent(bound: Option<u64>) -> bool
    ensures { result ≡ is_spent bound }
{
    match bound {
        None => false,
        Some(most) => most == 0,
    }
}

// What is left of a bound after so many bytes.
pub(crate) fn left_of(bound: Option<u64>, n: usize) -> Option<u64>
    requires { IfSome bound (λ most. n ≤ most) }
    ensures { result ≡ left_of bound n }
{
    match bound {
        None => None,
        Some(most) => Some(most - n as u64),
    }
}
