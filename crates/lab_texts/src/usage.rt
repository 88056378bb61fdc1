//! The usage text of the lab.

ghost use Rattle.std.specs.Prelude.{◌≡◌};
ghost use Rattle.lab_texts.specs.Usage.{lab_usage_text};

/// The lab's usage text.
pub fn usage() -> &'static [u8]
    ensures { result.now ≡ lab_usage_text }
{
    b"usage: lab why FILE [STARTS] [--of NAME]
       lab seen FILE STARTS --observer L [--env flat|part|part2] [--machine M] [--budget T] [--refused]
       lab timeline FILE STARTS [--env flat|part|part2] [--machine M] [--budget T] [--observer L] [--refused]
       lab bound FILE STARTS --observer L [--env flat|part|part2] [--machine M] [--budget T]
       lab steady FILE --observer L [--parts P] [--constant NAMES] [--whole]
       lab leak FILE STARTS --observer L [--env flat|part|part2] [--machine M] [--budget T] [--refused]
       lab tune FILE STARTS --observer L [--env flat|part|part2] [--machine M] [--budget T] [--of #K] [--bits B]
       lab check FILE --json
       lab help [COMMAND]
       lab version
"
}
