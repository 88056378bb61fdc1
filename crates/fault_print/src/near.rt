//! Names that are alike.

ghost use Rattle.std.specs.Prelude.{◌≡◌};
ghost use Rattle.fault_print.specs.Names.{small, is_same, is_turned, but_first, is_one_off, is_near};

// A letter, as a small one.
fn small(b: u8) -> u8
    ensures { result ≡ small b }
{
    if b > 64 && b < 91 { b + 32 } else { b }
}

// Whether two words differ in large and small letters at most.
fn is_same(w: &[u8], v: &[u8]) -> bool
    ensures { result ≡ is_same w.now v.now }
{
    match w {
        [] => v.is_empty(),
        [x, w @ ..] => match v {
            [] => false,
            [y, v @ ..] => small(*x) == small(*y) && is_same(w, v),
        },
    }
}

fn is_turned(w: &[u8], v: &[u8]) -> bool
    ensures { result ≡ is_turned w.now v.now }
{
    match w {
        [] => false,
        [_] => false,
        [x, z, w @ ..] => match v {
            [] => false,
            [_] => false,
            [y, u, v @ ..] => small(*x) == small(*u) && small(*z) == small(*y) && is_same(w, v),
        },
    }
}

fn but_first(w: &[u8]) -> &[u8]
    ensures { result.now ≡ but_first w.now }
{
    match w {
        [_, rest @ ..] => rest,
        [] => w,
    }
}

// Whether the first letter of a word is another one, is too much or is missing, or the first two have changed their places.
fn is_one_off(w: &[u8], v: &[u8]) -> bool
    ensures { result ≡ is_one_off w.now v.now }
{
    is_same(but_first(w), but_first(v))
        || is_same(but_first(w), v)
        || is_same(w, but_first(v))
        || is_turned(w, v)
}

/// Whether two words are alike: one letter is another one, is too much or is missing, or two have changed their places. Large and small
/// letters count as one.
pub fn is_near(w: &[u8], v: &[u8]) -> bool
    ensures { result ≡ is_near w.now v.now }
{
    match w {
        [] => is_one_off(w, v),
        [x, a @ ..] => match v {
            [] => is_one_off(w, v),
            [y, b @ ..] => {
                if small(*x) == small(*y) {
                    return is_near(a, b);
                }
                is_one_off(w, v)
            }
        },
    }
}
