//! What the definitions of reading and of printing say of each other.

ghost use Rattle.std.specs.Prelude.{◌≡◌, ℕ, List, Ok};
ghost use Rattle.hx_bundle.specs.declared.bundles.Bundle.{Bundle};
ghost use Rattle.hx_bundle.specs.Bundles.{IsBundle};
ghost use Rattle.hx_types.specs.declared.calls.Op.{Op};
ghost use Rattle.hx_types.specs.declared.spaces.Space.{Space};
ghost use Rattle.hx_types.specs.declared.traces.Script.{Script};
ghost use Rattle.hx_types.specs.Fitting.{IsScript};
ghost use Rattle.hx_types.specs.Spaces.{Fits, IsSpace};
ghost use Rattle.hx_script.specs.BundleTexts.{bundle_of};
ghost use Rattle.hx_script.specs.LoneCalls.{op_of_line};
ghost use Rattle.hx_script.specs.Texts.{script_of};
ghost use Rattle.hx_print.specs.BundlePrinting.{bundle_text};
ghost use Rattle.hx_print.specs.Printing.{op_text, script_text};
ghost use Rattle.hx_law_texts.specs.Again.{on_printed_lines};
ghost use Rattle.hx_law_texts.specs.Sayable.{CallIsSayable, IsSayableScript};
ghost use Rattle.hx_law_texts.specs.SayableBundles.{IsSayableBundle, on_printed_bundle_lines};

/// The print of a script is read as that script, each step on its line of the print.
///
/// This holds of each script within the limits that the language can say, and of no other. So it
/// holds of each that was read from some text, whatever the blanks, comments and empty lines there
/// were.
pub fn prints_are_read_back()
    ensures sayable { (s : Script) → IsScript s → IsSayableScript s → script_of (script_text s) ≡ Ok (on_printed_lines s) }
    ensures no_other { (s : Script) → script_of (script_text s) ≡ Ok (on_printed_lines s) → IsScript s × IsSayableScript s }
    ensures read { (text : List ℕ) (s : Script) → script_of text ≡ Ok s → script_of (script_text s) ≡ Ok (on_printed_lines s) }
    ensures said { (text : List ℕ) (s : Script) → script_of text ≡ Ok s → IsSayableScript s }
{}

/// The numbers of the steps' lines don't stand in a print: what is read back is printed the same.
pub fn prints_are_alike()
    ensures { (s : Script) → script_text (on_printed_lines s) ≡ script_text s }
{}

/// The print of a call is read as that call of a session of its space.
///
/// This holds of each call that fits the space and that the language can say, and of no other. So
/// it holds of each that was read from some line.
pub fn calls_are_read_back()
    ensures sayable { (space : Space) (op : Op) → IsSpace space → Fits space op → CallIsSayable op → op_of_line space (op_text space op) ≡ Ok op }
    ensures no_other { (space : Space) (op : Op) → IsSpace space → op_of_line space (op_text space op) ≡ Ok op → Fits space op × CallIsSayable op }
    ensures read { (space : Space) (line : List ℕ) (op : Op) → IsSpace space → op_of_line space line ≡ Ok op → op_of_line space (op_text space op) ≡ Ok op }
    ensures said { (space : Space) (line : List ℕ) (op : Op) → op_of_line space line ≡ Ok op → CallIsSayable op }
{}

/// The print of a bundle is read as that bundle, each step on its line of the print.
///
/// This holds of each bundle within the limits that the language can say, of one space or of
/// several, and of no other: it is always printed as a script of several. So it holds of each that
/// was read from some text, a script of one space too.
pub fn bundle_prints_are_read_back()
    ensures sayable { (b : Bundle) → IsBundle b → IsSayableBundle b → bundle_of (bundle_text b) ≡ Ok (on_printed_bundle_lines b) }
    ensures no_other { (b : Bundle) → bundle_of (bundle_text b) ≡ Ok (on_printed_bundle_lines b) → IsBundle b × IsSayableBundle b }
    ensures read { (text : List ℕ) (b : Bundle) → bundle_of text ≡ Ok b → bundle_of (bundle_text b) ≡ Ok (on_printed_bundle_lines b) }
    ensures said { (text : List ℕ) (b : Bundle) → bundle_of text ≡ Ok b → IsSayableBundle b }
{}
