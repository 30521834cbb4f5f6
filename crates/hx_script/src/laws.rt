//! What the definition of a text's script says of the script.

ghost use Rattle.std.specs.Prelude.{◌≡◌, ◌≢◌, ◌<◌, ℕ, List, Ok, Err, length};
ghost use Rattle.hx_types.specs.declared.calls.Op.{Op};
ghost use Rattle.hx_types.specs.declared.spaces.Space.{Space};
ghost use Rattle.hx_types.specs.declared.traces.Script.{Script};
ghost use Rattle.hx_types.specs.Fitting.{IsScript};
ghost use Rattle.hx_types.specs.Spaces.{Fits, IsSpace};
ghost use Rattle.hx_bundle.specs.declared.bundles.Bundle.{Bundle};
ghost use Rattle.hx_bundle.specs.Bundles.{IsBundle};
ghost use Rattle.hx_script.specs.declared.draft.Draft.{Draft};
ghost use Rattle.hx_script.specs.declared.errors.Reason.{Reason};
ghost use Rattle.hx_script.specs.declared.errors.Reason.TheVariants as reasons;
ghost use Rattle.hx_script.specs.declared.errors.ScriptError.TheVariants as errors;
ghost use Rattle.hx_script.specs.BundleTexts.{bundle_of};
ghost use Rattle.hx_script.specs.Grammar.{line_of};
ghost use Rattle.hx_script.specs.LoneCalls.{TakesCalls, op_of_line, with_call};
ghost use Rattle.hx_script.specs.Texts.{script_of};

/// What is read is a script within the limits, whose calls fit its space.
pub fn scripts_are_valid()
    ensures { (text : List ℕ) (s : Script) → script_of text ≡ Ok s → IsScript s }
{}

/// No text is refused because of a step: that one can't be taken only a run can tell. So
/// [`read`](crate::read) never gives the reason [`Step`](crate::Reason::Step).
pub fn texts_are_not_refused_by_steps()
    ensures { (text : List ℕ) (line : ℕ) → script_of text ≢ Err (errors.Refused line reasons.Step) }
{}

/// What is read is a bundle within the limits, whose calls fit their spaces, and whose steps are of
/// actors that are there.
pub fn bundles_are_valid()
    ensures { (text : List ℕ) (b : Bundle) → bundle_of text ≡ Ok b → IsBundle b }
{}

/// No text of one space or of several is refused because of a step.
pub fn bundles_are_not_refused_by_steps()
    ensures { (text : List ℕ) (line : ℕ) → bundle_of text ≢ Err (errors.Refused line reasons.Step) }
{}

/// What is read of a line is a call that fits the space.
pub fn calls_fit_their_space()
    ensures { (space : Space) (line : List ℕ) (op : Op) → IsSpace space → op_of_line space line ≡ Ok op → Fits space op }
{}

/// A line is read as a call exactly where it adds that call to a session of the space, and a call
/// that is refused for another reason than Order is refused for the same in a session.
pub fn calls_are_read_as_in_sessions()
    ensures read { (n : ℕ) (d : Draft) (line : List ℕ) (op : Op) → TakesCalls d → op_of_line d.space line ≡ Ok op → line_of n d line ≡ Ok (with_call d op) }
    ensures no_other { (n : ℕ) (d : Draft) (line : List ℕ) (op : Op) → TakesCalls d → 0 < length d.sessions → line_of n d line ≡ Ok (with_call d op) → op_of_line d.space line ≡ Ok op }
    ensures refused { (n : ℕ) (d : Draft) (line : List ℕ) (reason : Reason) → TakesCalls d → reason ≢ reasons.Order → op_of_line d.space line ≡ Err reason → line_of n d line ≡ Err reason }
{}
