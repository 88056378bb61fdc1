//! The places of a walk in the lists of a program: what is left of each list, the innermost one last.

ghost use Rattle.std.specs.Prelude.{◌≡◌, ◌<◌, ◌++◌, ◌∷◌, [], map, vec_len, OnOk, OnErr};
ghost use Rattle.source_meaning.specs.Frames.{without_last, some_list};

use mit_syntax::ast::Command;
use text_base::pos::Memory;

/// Puts the rest of a list in the place of the last one. An empty rest is dropped.
pub fn leave<'a>(frames: &mut Vec<&'a [Command]>, rest: &'a [Command])
    requires { 0 < vec_len frames.old }
    ensures { map (λ f. f.now) frames.new.items ≡ without_last (map (λ f. f.now) frames.old.items) ++ some_list rest.now }
{
    if rest.is_empty() {
        let _ = frames.pop();
    } else {
        let last = frames.len() - 1;
        frames[last] = rest;
    }
}

/// Puts the rest of a list in the place of the last one, and a list inside it after it. An empty rest is
/// dropped. Fails only for want of memory, and then the lists stay.
pub fn enter<'a>(
    frames: &mut Vec<&'a [Command]>,
    rest: &'a [Command],
    body: &'a [Command],
) -> Result<(), Memory>
    requires { 0 < vec_len frames.old }
    ensures ok { OnOk result (map (λ f. f.now) frames.new.items
        ≡ without_last (map (λ f. f.now) frames.old.items) ++ (some_list rest.now ++ body.now ∷ [])) }
    ensures err { OnErr result (frames.new.items ≡ frames.old.items) }
{
    let last = frames.len() - 1;
    if rest.is_empty() {
        frames[last] = body;
    } else {
        frames.push(body)?;
        frames[last] = rest;
    }
    Ok(())
}
