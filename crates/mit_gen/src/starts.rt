//! The starts of made programs.

ghost use Rattle.std.specs.Prelude.{◌≡◌, ◌<◌, ◌++◌, IfOk, OnOk, string_bytes};
ghost use Rattle.mit_gen.specs.Made.{start_text, starts_text};

use std::alloc::{AllocError, Global};

// Appends a run, which is below 4.
fn put_start(text: &mut String, run: u32) -> Result<(), AllocError>
    requires { run < 4 }
    ensures { OnOk result (string_bytes text.new ≡ string_bytes text.old ++ start_text run) }
{
    let (h1, h2, h3) = (2 * run, 3 * run, 5 * run);
    writeln!(
        text,
        "[[run]]\nmemory = {{ h0 = {run}, h1 = {h1}, h2 = {h2}, h3 = {h3} }}"
    )
}

/// The text of four runs.
pub fn starts(alloc: Global) -> Result<String, AllocError>
    ensures { IfOk result (λ s. string_bytes s ≡ starts_text) }
{
    let mut text = String::new(alloc);
    for run in 0..4 {
        put_start(&mut text, run)?;
    }
    Ok(text)
}
