//! Limits on a program's shape, and what they mean.

ghost use Rattle.std.specs.Prelude.{ℕ, ◌+◌, ◌≤◌, ◌↔◌, List, length};
ghost use Rattle.mit_syntax.specs.Declarations.{Declaration, AreFew, elements_in, variables};
ghost use Rattle.mit_syntax.specs.Expression.{Expression};
ghost use Rattle.mit_syntax.specs.Limits.{IsSmall, depth, operators};

use crate::declarations::{MAX_CELLS, MAX_ELEMENTS, MAX_VARIABLES};

/// The most brackets that are open at once: `(`, `{` and the `[` of an index.
pub const MAX_DEPTH: u32 = 100;

/// The most operators of a whole expression.
pub const MAX_OPERATORS: u32 = 256;

/// Says nothing at run time: what the definitions allow is what these constants say.
pub fn limits_are()
    ensures few { (ds : List Declaration) → AreFew ds ↔ ((length ds ≤ MAX_VARIABLES) × (elements_in ds ≤ MAX_ELEMENTS)) }
    ensures cells { (ds : List Declaration) → AreFew ds → variables ds ≤ MAX_CELLS }
    ensures small { (d : ℕ) (e : Expression) → IsSmall d e ↔ ((d + depth 1 e ≤ MAX_DEPTH) × (operators e ≤ MAX_OPERATORS)) }
{}
